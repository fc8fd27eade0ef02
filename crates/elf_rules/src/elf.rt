// SPDX-License-Identifier: Apache-2.0
//! Parts of an ELF-64 file as they stand in it (System V gABI, "Program Header", "Section Header", "Symbol
//! Table").
use sh_types::{Items, Section};

/// A part of the file that becomes memory: p_vaddr, p_offset, p_filesz, p_memsz, and whether p_flags has PF_W.
#[derive(Clone, Copy, Debug, PartialEq, Eq)]
pub struct Segment {
    pub start: u64,
    pub file_at: u64,
    pub file_size: u64,
    pub size: u64,
    pub writable: bool,
}

/// A program header: p_type, and the segment that it describes.
#[derive(Clone, Copy, Debug, PartialEq, Eq)]
pub struct Program {
    pub kind: u32,
    pub segment: Segment,
}

/// A section header: sh_name, sh_type, sh_flags, sh_addr, sh_offset, sh_size, sh_link, sh_info and sh_entsize.
#[derive(Clone, Copy, Debug, PartialEq, Eq)]
pub struct Head {
    pub name: u32,
    pub kind: u32,
    pub flags: u64,
    pub start: u64,
    pub file_at: u64,
    pub size: u64,
    pub link: u32,
    pub info: u32,
    pub each: u64,
}

/// A symbol: st_name, the low four bits of st_info, st_shndx, st_value and st_size.
#[derive(Clone, Copy, Debug, PartialEq, Eq)]
pub struct RawSymbol {
    pub name: u32,
    pub kind: u8,
    pub section: u16,
    pub value: u64,
    pub size: u64,
}

/// Addresses from `start` on, `size` of them.
#[derive(Clone, Copy, Debug, PartialEq, Eq)]
pub struct Span {
    pub start: u64,
    pub size: u64,
}

/// The tables of a file: e_entry, e_shstrndx, the PT_LOAD headers in their order, and of each section header the
/// addresses and the header itself, in their order, so that a section's number is its place in both.
#[derive(Debug, Drop)]
pub struct Elf {
    pub entry: u64,
    pub names: u32,
    pub segments: Items<Segment>,
    pub sections: Items<Section>,
    pub heads: Items<Head>,
}
