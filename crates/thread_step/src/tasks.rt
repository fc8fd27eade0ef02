// SPDX-License-Identifier: Apache-2.0
//! What an instruction is to do. It hangs on the image alone, so it is found once.
use rv_table::Instr;

/// What an instruction is to do, with what its word, its class and the state of its frame say of it. The offset of a
/// branch is one of its own function.
#[derive(Clone, Copy, Debug)]
pub enum Task {
    Sets { rd: u8, value: u64 },
    Computes { instr: Instr },
    Passes,
    Loads { instr: Instr },
    Stores { instr: Instr },
    Atomics { instr: Instr },
    Saves { imm: i64 },
    Restores { imm: i64 },
    CallsTo { func: u32 },
    JumpsTo { func: u32, off: u32 },
    Branches { instr: Instr, off: u32 },
    Untaken { instr: Instr, off: u32 },
    CallsThrough { rs1: u8, imm: i64 },
    JumpsThrough { rs1: u8, imm: i64 },
    GoesBack { imm: i64 },
    Asks,
    Breaks,
    Illegal,
}
