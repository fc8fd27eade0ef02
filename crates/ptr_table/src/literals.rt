// SPDX-License-Identifier: Apache-2.0
//! What an AUIPC puts into its register.
ghost use Rattle.std.specs.Prelude.{◌≡◌, ◌<◌, ◌≤◌, ◌^◌, ◌-ℤ◌, pos};
ghost use Rattle.rv_table.specs.Decoding.{signed_bits};
ghost use Rattle.rv_table.specs.Operands.{number_of_imm};
ghost use Rattle.elf_rules.specs.Relocs as relocs;
ghost use Rattle.sh_machines.specs.Class.{record_on as record_on_of};
ghost use Rattle.fn_lookup.specs.Apart.{AreApart};
ghost use Rattle.image_rules.specs.Binding as binding;

use elf_rules::kinds::R_RISCV_PCREL_HI20;
use fn_lookup::{named_by, started_at};
use sh_types::{Function, Items, Reloc};
use token_lookup::token_of;

/// lo12 of the record's distance (S + A - P), by its 12 bits.
#[tactic(auto, unfolding(elf_rules::specs::Relocs::modulo))]
fn low_of_distance(reloc: &Reloc) -> u64
    ensures low { result ≡ relocs.low_of (relocs.distance_of reloc.now) }
    ensures small { result < 2 ^ 12 }
{
    let distance = i128::from(reloc.base) + i128::from(reloc.addend) - i128::from(reloc.place);
    distance.rem_euclid(0x1000) as u64
}

/// The token less a number of 12 bits, which is signed.
fn less(token: u64, low: u64) -> u64
    requires high { 2 ^ 12 ≤ token }
    requires token { token < 2 ^ 40 }
    requires low { low < 2 ^ 12 }
    ensures { result ≡ number_of_imm (pos token -ℤ signed_bits 11 low) }
{
    if low < 0x800 {
        token - low
    } else {
        token + (0x1000 - low)
    }
}

/// A number of 32 bits, sign-extended.
fn extended(upper: u64) -> u64
    requires { upper < 2 ^ 32 }
    ensures { result ≡ number_of_imm (signed_bits 31 upper) }
{
    if upper < 0x8000_0000 {
        upper
    } else {
        upper + 0xffff_ffff_0000_0000
    }
}

/// The address of an AUIPC and its immediate.
fn own_literal(home: u64, word: u32) -> u64
    ensures { result ≡ binding.own_literal home word }
{
    home.wrapping_add(extended(u64::from(word / 0x1000 * 0x1000)))
}

/// The token of a function less lo12 of the record's distance.
fn token_literal(func: u32, reloc: &Reloc) -> u64
    ensures { result ≡ binding.token_literal func reloc.now }
{
    less(token_of(func), low_of_distance(reloc))
}

/// The number that the AUIPC at an address gives, by the record on it: with a PCREL_HI20 to the start of a function (RISC-V
/// psABI, "Relocations") the function's token less lo12 of the record's distance; else its address and its immediate. It
/// takes no memory.
#[tactic(auto, unfolding(image_rules::specs::Binding::literal_by))]
pub fn literal_by(functions: &Items<Function>, reloc: Option<Reloc>, home: u64, word: u32) -> u64
    requires { AreApart functions.now }
    ensures { result ≡ binding.literal_by functions.now reloc home word }
{
    let Some(reloc) = reloc else {
        return own_literal(home, word);
    };
    if reloc.kind != R_RISCV_PCREL_HI20 {
        return own_literal(home, word);
    }
    match started_at(functions.as_slice(), named_by(&reloc)) {
        None => own_literal(home, word),
        Some(func) => token_literal(func, &reloc),
    }
}

/// The first record on the word at an address.
fn record_on(relocs: &[Reloc], home: u64) -> Option<Reloc>
    ensures { result ≡ record_on_of relocs.now home }
{
    for reloc in relocs {
        if reloc.code && reloc.place == home {
            return Some(*reloc);
        }
    }
    None
}

/// The number that the AUIPC at an address gives, by the record among these that stands on it. It takes no memory. It looks
/// through the records: where the record is known, `literal_by` does without.
pub fn literal(functions: &Items<Function>, relocs: &Items<Reloc>, home: u64, word: u32) -> u64
    requires { AreApart functions.now }
    ensures { result ≡ binding.literal_of functions.now relocs.now home word }
{
    literal_by(functions, record_on(relocs.as_slice(), home), home, word)
}
