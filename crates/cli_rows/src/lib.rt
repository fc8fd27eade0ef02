// SPDX-License-Identifier: Apache-2.0
//! What the commands of the command line come to: rows, and what is due for those that run no guest of a file.
#![tactic(auto)]

mod asm;
mod check;
mod demo;
mod judging;
mod laws;
mod limits;
mod lines;

pub use asm::of_asm;
pub use check::of_check;
pub use cli_words::{Command, Opts, WordFault, numbers_are_in_range, read_words};
pub use demo::of_demo;
pub use judging::{Judged, judge};
pub use laws::dues_are_said;
pub use limits::FILE_LIMIT;
pub use lines::{help, too_long, unreadable, unwritable, usage};
