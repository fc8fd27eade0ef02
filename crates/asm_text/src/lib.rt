// SPDX-License-Identifier: Apache-2.0
//! The text of an assembler's source as statements.
#![tactic(auto)]

mod faults;
mod forms;
mod laws;
mod lines;
mod naming;
mod reading;
mod statements;

pub use faults::{AsmFault, AsmRule, LineFault};
pub use laws::statements_lie_in_their_text;
pub use lines::{Source, read};
pub use statements::{Item, Statement};
