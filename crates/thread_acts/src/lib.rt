// SPDX-License-Identifier: Apache-2.0
//! What one instruction of a hart does on the image that never moves, kind by kind.
#![tactic(auto)]

mod answers;
mod arithmetic;
mod atomic;
mod control;
mod memory;
mod registers;
mod returns;
mod threads;

pub use answers::Did;
pub use arithmetic::computes;
pub use atomic::atomics;
pub use control::{branches, calls_through, calls_to, jumps_through, jumps_to};
pub use memory::{loads, stores};
pub use registers::{passes, sets};
pub use returns::{goes_back, restores, saves};
pub use threads::Thread;
