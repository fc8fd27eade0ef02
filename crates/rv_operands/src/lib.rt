// SPDX-License-Identifier: Apache-2.0
//! The operands of instructions: which registers they read, what they compute of them, and how many bytes they touch
//! (RISC-V Unprivileged ISA, RV32I, "Integer Computational Instructions" and "Load and Store Instructions"). No hart and
//! no memory has a part in it.
#![tactic(auto)]

mod registers;
mod widths;

pub use registers::{both_ra, computed, plus_imm, reads_ra};
pub use widths::{taken, width};
