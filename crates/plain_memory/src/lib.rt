// SPDX-License-Identifier: Apache-2.0
//! The memory of the machine that never moves: words of eight bytes, each a number or a hart's return word.
#![tactic(auto)]

mod area;
mod areas;
mod as_contents;
mod contents;
mod faults;
mod filling;
mod making;
mod memory;
mod numbers;
mod ranges;
mod returns;

pub use contents::{AccessFault, Contents, SaveFault};
pub use memory::PlainMemory;
