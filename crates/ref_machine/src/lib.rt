// SPDX-License-Identifier: Apache-2.0
//! The machine that never moves: an image's instructions, hart by hart, in the serial order.
#![tactic(auto)]

mod answers;
mod asking;
mod calls;
mod finishing;
mod going;
mod losing;
mod making;
mod plain;
mod single;
mod state;
mod stepping;
mod turns;

pub use answers::PlainNo;
pub use plain::Plain;
