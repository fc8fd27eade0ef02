// SPDX-License-Identifier: Apache-2.0
//! The command line: what the commands load, how what is due is delivered, and the top call.
#![tactic(auto)]

mod deliver;
mod due;
mod laws;
mod loads;
mod main_call;
mod rows;
mod top;

pub use cli_rows::{Command, Opts, WordFault, dues_are_said, read_words};
pub use due::{Done, FileOr, Outcome};
pub use guest_dues::{Due, FileStore, runs_keep_pace};
pub use laws::{answers_are_said, held_files_are_loaded};
pub use main_call::shuffler_main;
pub use top::serial_command;
