// SPDX-License-Identifier: Apache-2.0
//! The report on a run: what it was made from, which layouts came and went, and how it ended.
#![tactic(auto)]

mod cells;
mod copies;
mod full;
mod lines;
mod moves;
mod replay;
mod sizes;
mod writer;

pub use lines::end as end_line;
pub use writer::{Form, report};
