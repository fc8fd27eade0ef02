// SPDX-License-Identifier: Apache-2.0
//! Instructions of one hart, run from the copies of the layouts that are live.
#![tactic(auto)]

mod asking;
mod calls;
mod finishing;
mod going;
mod losing;
mod state;
mod stepping;
mod transfers;

pub use state::{LiveCode, Prepared, State};
pub use stepping::run_hart;
