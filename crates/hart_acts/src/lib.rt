// SPDX-License-Identifier: Apache-2.0
//! What an instruction of each kind does to a hart and to the words that it sees.
#![tactic(auto)]

mod answers;
mod arithmetic;
mod atomics;
mod control;
mod memory;
mod registers;
mod ways;

pub use answers::{Did, Short, trapped, went, whole};
pub use arithmetic::computes;
pub use atomics::{exchanges, reserves, stores_if};
pub use control::{branches, calls, calls_through, goes_back, jumps, jumps_through};
pub use memory::{loads, restores, saves, stores};
pub use registers::{advance, set};
