// SPDX-License-Identifier: Apache-2.0
//! What records put into words.
ghost use Rattle.std.specs.Prelude.{◌≡◌, ◌<◌, ◌^◌, pos};
ghost use Rattle.elf_rules.specs.Relocs as relocs;
ghost use Rattle.fn_lookup.specs.Apart.{AreApart};
ghost use Rattle.image_rules.specs.Binding as binding;

use elf_rules::kinds::{R_RISCV_HI20, R_RISCV_LO12_I, R_RISCV_LO12_S};
use fn_lookup::{named_by, started_at};
use sh_types::{Function, Items, Reloc};
use token_lookup::token_of;

/// hi20, by its 20 bits.
#[tactic(auto, unfolding(elf_rules::specs::Relocs::high_of, elf_rules::specs::Relocs::modulo))]
fn high_of(token: u64) -> u32
    requires { token < 2 ^ 40 }
    ensures high { result ≡ relocs.high_of (pos token) }
    ensures small { result < 2 ^ 20 }
{
    ((token + 0x800) % 0x1_0000_0000 / 0x1000) as u32
}

/// lo12, by its 12 bits.
#[tactic(auto, unfolding(elf_rules::specs::Relocs::modulo))]
fn low_of(token: u64) -> u32
    ensures low { result ≡ relocs.low_of (pos token) }
    ensures small { result < 2 ^ 12 }
{
    (token % 0x1000) as u32
}

/// The word with these bits at 31 to 12.
fn with_high(word: u32, bits: u32) -> u32
    requires { bits < 2 ^ 20 }
    ensures { result ≡ binding.with_high word bits }
{
    word % 0x1000 + 0x1000 * bits
}

/// The word with these bits at 31 to 20.
fn with_low(word: u32, bits: u32) -> u32
    requires { bits < 2 ^ 12 }
    ensures { result ≡ binding.with_low word bits }
{
    word % 0x10_0000 + 0x10_0000 * bits
}

/// The word with these bits at 31 to 25 and 11 to 7.
fn with_low_store(word: u32, bits: u32) -> u32
    requires { bits < 2 ^ 12 }
    ensures { result ≡ binding.with_low_store word bits }
{
    word % 0x80
        + 0x80 * (bits % 0x20)
        + 0x1000 * (word / 0x1000 % 0x2000)
        + 0x200_0000 * (bits / 0x20)
}

/// The word with the number in the field of a record of this kind.
#[tactic(auto, unfolding(image_rules::specs::Binding::with_number))]
fn with_number(kind: u32, number: u64, word: u32) -> u32
    requires { number < 2 ^ 40 }
    ensures { result ≡ binding.with_number kind number word }
{
    match kind {
        R_RISCV_HI20 => with_high(word, high_of(number)),
        R_RISCV_LO12_I => with_low(word, low_of(number)),
        R_RISCV_LO12_S => with_low_store(word, low_of(number)),
        _ => word,
    }
}

/// The word with the immediate of the token of the function that starts at the record's S + A (RISC-V psABI,
/// "Relocations"), for a HI20, a LO12_I or a LO12_S; any other word as it is. It takes no memory.
#[tactic(auto, unfolding(image_rules::specs::Binding::bound_word))]
pub fn bind_word(functions: &Items<Function>, reloc: &Reloc, word: u32) -> u32
    requires { AreApart functions.now }
    ensures { result ≡ binding.bound_word functions.now reloc.now word }
{
    match started_at(functions.as_slice(), named_by(reloc)) {
        None => word,
        Some(func) => with_number(reloc.kind, token_of(func), word),
    }
}
