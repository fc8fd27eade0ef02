// SPDX-License-Identifier: Apache-2.0
//! A function as it is walked.
use sh_types::{Pair, Site};

/// A function: its number and that of the entry function, its words with their classes, and the labels of all functions;
/// and what the walk goes by: for each word the known number of the register that an `add` adds to sp, and the words at
/// which the function's labels stand.
#[derive(Clone, Copy)]
pub struct Body<'a> {
    pub func: u32,
    pub entry: u32,
    pub words: &'a [u32],
    pub sites: &'a [Site],
    pub labels: &'a [Pair],
    pub operands: &'a [Option<u64>],
    pub own: &'a [usize],
}
