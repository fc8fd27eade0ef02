// SPDX-License-Identifier: Apache-2.0
//! Operands: registers, numbers and names, one behind the other.
ghost use Rattle.std.specs.Prelude.{◌≡◌, ◌==◌, length, option_map, IfSome, IfNone};
ghost use Rattle.std.specs.Str.{IsUtf8};
ghost use Rattle.asm_words.specs.Characters.{trimmed as trimmed_of};
ghost use Rattle.asm_words.specs.Registers.{register_of};
ghost use Rattle.asm_words.specs.Results.{Gives};
ghost use Rattle.asm_words.specs.Operands.{is_nothing as is_nothing_of, bracketed as bracketed_of, indexed as indexed_of, based as based_of, name_of, register_first as register_first_of, register_and_name as register_and_name_of, register_and_number as register_and_number_of};

use crate::characters::{cut, is_name, trimmed};
use crate::faults::Unread;
use crate::numbers::number;
use crate::registers::register_named;
use sh_types::SymbolName;
use std::alloc::Global;

/// The register that the operand is.
#[tactic(auto, using(crate::proofs::Words::no_register), unfolding(crate::specs::Registers::register_of))]
pub fn register(text: &[u8]) -> Option<u8>
    ensures { result ≡ register_of text.now }
{
    match str::from_utf8(trimmed(text)) {
        Ok(name) => register_named(name),
        Err(_) => None,
    }
}

/// Whether the text is nothing but blanks.
pub fn is_nothing(text: &[u8]) -> bool
    ensures { result ≡ is_nothing_of text.now }
{
    trimmed(text).is_empty()
}

#[tactic(auto, unfolding(crate::specs::Operands::bracketed))]
fn bracketed(text: &[u8]) -> Option<(&[u8], &[u8])>
    ensures { option_map (λ x. (x.0.now, x.1.now)) result ≡ bracketed_of text.now }
{
    let (front, rest) = cut(text, b'(')?;
    let (inside, behind) = cut(rest, b')')?;
    if is_nothing(behind) {
        Some((front, inside))
    } else {
        None
    }
}

/// The number and the register of `number(register)`.
#[tactic(auto, unfolding(crate::specs::Operands::indexed))]
pub fn indexed(text: &[u8]) -> Option<(i128, u8)>
    ensures { result ≡ indexed_of text.now }
{
    let (front, inside) = bracketed(text)?;
    let imm = number(front)?;
    let base = register(inside)?;
    Some((imm, base))
}

/// The register of `(register)`.
#[tactic(auto, unfolding(crate::specs::Operands::based))]
pub fn based(text: &[u8]) -> Option<u8>
    ensures { result ≡ based_of text.now }
{
    let (front, inside) = bracketed(text)?;
    if is_nothing(front) {
        register(inside)
    } else {
        None
    }
}

/// The register before the first comma, and what stands behind it.
#[tactic(auto, unfolding(crate::specs::Operands::register_first))]
pub fn register_first(text: &[u8]) -> Option<(u8, &[u8])>
    ensures { option_map (λ x. (x.0, x.1.now)) result ≡ register_first_of text.now }
{
    let (front, rest) = cut(text, b',')?;
    let number = register(front)?;
    Some((number, rest))
}

/// The register and the number of `register, number`.
#[tactic(auto, unfolding(crate::specs::Operands::register_and_number))]
pub fn register_and_number(text: &[u8]) -> Option<(u8, i128)>
    ensures { result ≡ register_and_number_of text.now }
{
    let (first, rest) = register_first(text)?;
    let value = number(rest)?;
    Some((first, value))
}

/// The name that the operand is.
#[tactic(auto, unfolding(crate::specs::Operands::name_of))]
pub fn name(alloc: Global, text: &[u8]) -> Result<SymbolName, Unread>
    ensures { Gives (λ n. n) result (name_of text.now) }
{
    let text = trimmed(text);
    if !is_name(text) {
        return Err(Unread::Form);
    }
    Ok(SymbolName::from_slice(alloc, text)?)
}

/// The register and the name of `register, name`.
#[tactic(auto, unfolding(crate::specs::Operands::register_and_name))]
pub fn register_and_name(alloc: Global, text: &[u8]) -> Result<(u8, SymbolName), Unread>
    ensures { Gives (λ x. x) result (register_and_name_of text.now) }
{
    let (first, rest) = register_first(text).ok_or(Unread::Form)?;
    let name = name(alloc, rest)?;
    Ok((first, name))
}
