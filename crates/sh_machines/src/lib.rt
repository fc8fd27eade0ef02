// SPDX-License-Identifier: Apache-2.0
//! Both machines, what happens to them, and what ties them together: the definitions stand in specs/.
#![tactic(auto)]

mod laws;

pub use laws::{instructions_come_out, instructions_see_one_word, reservations_share_bytes};
