// SPDX-License-Identifier: Apache-2.0
//! Tokens in data.

/// A number that stands for code in data, where an address stood: its address, how many bytes it takes there, and the
/// number.
#[derive(Clone, Copy, Debug, PartialEq, Eq)]
pub struct Token {
    pub place: u64,
    pub width: u64,
    pub value: u64,
}
