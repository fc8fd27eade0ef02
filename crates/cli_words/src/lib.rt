// SPDX-License-Identifier: Apache-2.0
//! The words of a command line, and what they ask for.
#![tactic(auto)]

mod faults;
mod laws;
mod limits;
mod numbers;
mod options;
mod reading;
mod texts;
mod words;

pub use faults::WordFault;
pub use laws::numbers_are_in_range;
pub use options::Opts;
pub use words::{Command, read_words};
