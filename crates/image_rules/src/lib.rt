// SPDX-License-Identifier: Apache-2.0
//! What an image is, by its file; the definitions stand in specs/.
#![tactic(auto)]

mod tokens;

pub use tokens::Token;
