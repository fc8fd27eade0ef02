// SPDX-License-Identifier: Apache-2.0
//! Objects: what the assembler makes of a source.
use crate::bytes::Bytes;
use crate::code::Function;
use crate::items::Items;
use crate::symbols::Symbol;

/// An assembled source: the number of the entry function; the functions, one behind the other from address 0x10000 on,
/// and the words of each; the bytes of the data; all symbols of the file in its order, the null symbol first; and the
/// marks.
#[derive(Debug, Drop)]
pub struct Object {
    pub entry: u32,
    pub functions: Items<Function>,
    pub words: Items<Items<u32>>,
    pub bytes: Bytes,
    pub symbols: Items<Symbol>,
    pub marks: Items<Mark>,
}

/// A place that refers to a symbol: whether it is in the text or in the data, its offset there in bytes, the kind of
/// relocation (RISC-V psABI, "Relocations"), and the symbol's number.
#[derive(Clone, Copy, Debug, PartialEq, Eq)]
pub struct Mark {
    pub in_text: bool,
    pub at: u64,
    pub kind: u32,
    pub symbol: u32,
}
