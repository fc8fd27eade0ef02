// SPDX-License-Identifier: Apache-2.0
//! How machines are driven: the serial order.
#![tactic(auto)]

mod driven;
mod harts;
mod layouts;
mod plan;
mod serial;

pub use plan::Plan;
pub use serial::{run_new, run_serial};
