// SPDX-License-Identifier: Apache-2.0
//! What is due for a run of a guest's image, by either machine.
#![tactic(auto)]

mod due;
mod pace;
mod plain;
mod run;
mod way;

pub use due::{Due, FileStore};
pub use pace::runs_keep_pace;
pub use run::{make_run, status_of};
pub use way::{Way, of_guest};
