// SPDX-License-Identifier: Apache-2.0
//! Why an instruction was not done.

/// Why an instruction was not done: memory was refused; the run has ended; no hart of this number is live.
#[derive(Clone, Copy, Debug, PartialEq, Eq)]
pub enum PlainNo {
    NoMemory,
    RunEnded,
    NoHart { hart: u32 },
}
