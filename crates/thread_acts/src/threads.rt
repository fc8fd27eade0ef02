// SPDX-License-Identifier: Apache-2.0
//! The state of a hart on the image that never moves.

use rv_table::Reservation;
use sh_types::{CodeRef, Pair};

/// A hart: it is at a pair, and a return address in ra is no number. `ra` is None where ra, x1, holds the number that
/// stands in `regs`. In the machine that runs from moved copies the same hart is a `Hart`.
#[derive(Clone, Copy, Debug, PartialEq, Eq)]
pub struct Thread {
    pub number: u32,
    pub live: bool,
    pub code: u8,
    pub at: Pair,
    pub regs: [u64; 32],
    pub ra: Option<CodeRef>,
    pub reserved: Option<Reservation>,
}
