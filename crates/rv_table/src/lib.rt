// SPDX-License-Identifier: Apache-2.0
//! The instructions of RV64IMA and the forms of copies: their types; the manual's tables stand in specs/.
#![tactic(auto)]

mod instructions;
mod rows;

pub use instructions::{Instr, Op, Reservation, XInstr};
pub use rows::{Form, Row};
