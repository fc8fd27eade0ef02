// SPDX-License-Identifier: Apache-2.0
//! Where functions start, by the symbols.

/// Where a function starts, by the symbols: its home address, the size that the symbols give, the ends of its
/// section, and the place in the symbol table of the symbol that names it. The function that is added at the
/// file's entry has no symbol.
#[derive(Clone, Copy, Debug, PartialEq, Eq)]
pub struct Start {
    pub home: u64,
    pub size: u64,
    pub low: u64,
    pub high: u64,
    pub place: Option<usize>,
}
