// SPDX-License-Identifier: Apache-2.0
//! The source of a guest by a number, in the assembler's language.
#![tactic(auto)]

mod blocks;
mod guest;

pub use guest::guest_of;
