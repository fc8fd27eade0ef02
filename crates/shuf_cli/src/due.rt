// SPDX-License-Identifier: Apache-2.0
//! A file or what is due in its place, and the answer.

use guest_dues::Due;
use sh_types::{Bytes, End};
use shuf_machine::Machine;

/// A file that was loaded, or what is due in its place.
#[derive(Debug, Drop)]
pub enum FileOr {
    File(Bytes),
    Instead(Due),
}

/// The answer of the top call: the status, and the run's end and machine where there was a run.
#[derive(Debug, Drop)]
pub struct Done {
    pub status: u8,
    pub end: Option<End>,
    pub machine: Option<Machine>,
}

/// How what is due was delivered: the status, and whether no store failed.
#[derive(Clone, Copy, Debug)]
pub struct Outcome {
    pub status: u8,
    pub stored: bool,
}
