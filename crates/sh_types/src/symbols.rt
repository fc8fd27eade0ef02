// SPDX-License-Identifier: Apache-2.0
//! Symbols and sections of an ELF-64 file (System V gABI, "Symbol Table", "Sections").
use crate::names::SymbolName;

/// A symbol with its name: the low four bits of st_info, st_shndx, st_value and st_size.
#[derive(Debug, Drop)]
pub struct Symbol {
    pub name: SymbolName,
    pub kind: u8,
    pub section: u16,
    pub value: u64,
    pub size: u64,
}

/// The addresses of a section, and whether code stands there: SHF_ALLOC, SHF_EXECINSTR and a size.
#[derive(Clone, Copy, Debug, PartialEq, Eq)]
pub struct Section {
    pub start: u64,
    pub size: u64,
    pub executable: bool,
}
