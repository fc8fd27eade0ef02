// SPDX-License-Identifier: Apache-2.0
//! One instruction of a hart on the image that never moves: what its word does, by the word's class, its mnemonic and the
//! frame's state. All that hangs on the image alone is found once, when its code is made.
#![tactic(auto)]

mod answers;
mod code;
mod control;
mod doing;
mod frames;
mod listing;
mod literals;
mod plain;
mod quick;
mod reading;
mod sites;
mod stepping;
mod tasks;

pub use code::Code;
pub use stepping::{quick_step, step};
