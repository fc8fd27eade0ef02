// SPDX-License-Identifier: Apache-2.0
//! The kinds of relocation records (RISC-V psABI, "Relocations").
ghost use Rattle.std.specs.Prelude.{◌≡◌};
ghost use Rattle.elf_rules.specs.Relocs as relocs;

pub const R_RISCV_NONE: u32 = 0;

pub const R_RISCV_32: u32 = 1;

pub const R_RISCV_64: u32 = 2;

pub const R_RISCV_BRANCH: u32 = 16;

pub const R_RISCV_JAL: u32 = 17;

pub const R_RISCV_CALL: u32 = 18;

pub const R_RISCV_CALL_PLT: u32 = 19;

pub const R_RISCV_GOT_HI20: u32 = 20;

pub const R_RISCV_PCREL_HI20: u32 = 23;

pub const R_RISCV_PCREL_LO12_I: u32 = 24;

pub const R_RISCV_PCREL_LO12_S: u32 = 25;

pub const R_RISCV_HI20: u32 = 26;

pub const R_RISCV_LO12_I: u32 = 27;

pub const R_RISCV_LO12_S: u32 = 28;

pub const R_RISCV_TPREL_ADD: u32 = 32;

pub const R_RISCV_ALIGN: u32 = 43;

pub const R_RISCV_RELAX: u32 = 51;

/// How many bytes from its place on a record of the kind takes; none where the kind is not known.
#[tactic(auto, unfolding(crate::specs::Relocs::width_of))]
pub fn width_of(kind: u32) -> u64
    ensures { result ≡ relocs.width_of kind }
{
    match kind {
        R_RISCV_64 | R_RISCV_CALL | R_RISCV_CALL_PLT => 8,
        R_RISCV_32 | R_RISCV_BRANCH | R_RISCV_JAL | R_RISCV_GOT_HI20 => 4,
        R_RISCV_PCREL_HI20..=R_RISCV_TPREL_ADD => 4,
        _ => 0,
    }
}
