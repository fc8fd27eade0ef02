// SPDX-License-Identifier: Apache-2.0
//! Relocation records as they stand in a file, and what they say of the bytes at their places (System V gABI,
//! "Relocation"; RISC-V psABI, "Relocations").

/// A record as it stands (Elf64_Rela): r_offset, the kind and the symbol's number of r_info, and r_addend; and the
/// number of the section that it is on, which is the sh_info of its table.
#[derive(Clone, Copy, Debug, PartialEq, Eq)]
pub struct RawReloc {
    pub place: u64,
    pub kind: u32,
    pub symbol: u32,
    pub addend: i64,
    pub target: u32,
}

/// Where a record's value stands at its place: in four or eight bytes, as the distance of a branch or of a JAL, in an
/// AUIPC and the word behind it, in the high part of a U-form, or in the low part of an I-form or an S-form. `Unchecked`
/// says that nothing is compared.
#[derive(Clone, Copy, Debug, PartialEq, Eq)]
pub enum Field {
    Four,
    Eight,
    Branch,
    Jump,
    Pair,
    High,
    LowImmediate,
    LowStore,
    Unchecked,
}

/// A field does not have the bits of its record's value: those that it has, and those that it should have.
#[derive(Clone, Copy, Debug, PartialEq, Eq)]
pub struct Disagrees {
    pub found: u64,
    pub expected: u64,
}
