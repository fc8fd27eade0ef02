// SPDX-License-Identifier: Apache-2.0
//! The words of statements.
ghost use Rattle.std.specs.Prelude.{◌≡◌, ◌++◌, ◌∷◌, ◌^◌, [], true, replicate, OnOk};
ghost use Rattle.rv_table.specs.Instruction.{IsSigned};
ghost use Rattle.asm_places.specs.Places.{natural as natural_of};
ghost use Rattle.asm_places.specs.Ranges.{is_from, is_in_range};
ghost use Rattle.rv_asm.specs.declared.writing.Unwritten.TheVariants as unwritten;
ghost use Rattle.rv_asm.specs.Seen.{instrs_seen};
ghost use Rattle.rv_asm.specs.Words.{plain_words};
ghost use Rattle.rv_asm.specs.Writing.{Writes, WritesWords};

use crate::words::{Sequence, instrs};
use asm_places::natural;
use asm_text::Statement;
use rv_encode::encode;
use rv_table::Instr;
use std::alloc::{AllocError, AllocFailed};

/// The word of ADDI x0, x0, 0.
const NOP: u32 = 0x13;

/// Why a statement's words are not written: memory was refused, or a distance or number is out of its field's range.
#[derive(Clone, Copy, Debug, PartialEq, Eq)]
pub enum Unwritten {
    NoMemory,
    Range,
}

impl From<AllocError> for Unwritten {
    ghost from_gives = { λ _ e. e ≡ unwritten.NoMemory };

    fn from(_: AllocError) -> Self {
        Unwritten::NoMemory
    }
}

impl<T: Drop> From<AllocFailed<T>> for Unwritten {
    ghost from_gives = { λ _ e. e ≡ unwritten.NoMemory };

    fn from(_: AllocFailed<T>) -> Self {
        Unwritten::NoMemory
    }
}

fn push_instr(words: &mut Vec<u32>, instr: &Instr) -> Result<(), Unwritten>
    ensures { Writes words.old.items words.new.items result (instr.now ∷ []) }
{
    match encode(instr) {
        Some(word) => {
            words.push(word)?;
            Ok(())
        }
        None => Err(Unwritten::Range),
    }
}

#[tactic(auto, using(crate::proofs::Appending::two_written, crate::proofs::Appending::second_out, crate::proofs::Appending::none_written))]
fn push_sequence(words: &mut Vec<u32>, sequence: Sequence) -> Result<(), Unwritten>
    ensures { Writes words.old.items words.new.items result (instrs_seen sequence) }
{
    match sequence {
        Sequence::None => Ok(()),
        Sequence::One { first } => push_instr(words, &first),
        Sequence::Two { first, second } => {
            push_instr(words, &first)?;
            push_instr(words, &second)
        }
    }
}

fn raw(value: i128) -> u32
    requires { is_from 0 (2 ^ 32) value ≡ true }
    ensures { result ≡ natural_of value }
{
    value as u32
}

#[tactic(auto, using(std::proofs::lemmas::List::replicate_more))]
fn push_nops(words: &mut Vec<u32>, count: u64) -> Result<(), AllocError>
    ensures { OnOk result (words.new.items ≡ words.old.items ++ replicate count 0x13) }
{
    for _ in 0..count {
        words.push(NOP)?;
    }
    Ok(())
}

#[tactic(auto, unfolding(crate::specs::Words::plain_words, asm_places::specs::Ranges::is_in_range))]
fn push_plain(words: &mut Vec<u32>, statement: &Statement) -> Result<(), AllocError>
    requires { is_in_range statement.now ≡ true }
    ensures { OnOk result (words.new.items ≡ words.old.items ++ plain_words statement.now) }
{
    match statement {
        Statement::Raw { value } => {
            words.push(raw(*value))?;
            Ok(())
        }
        Statement::Nops { count } => push_nops(words, natural(*count)),
        _ => Ok(()),
    }
}

/// Adds the words of a statement, at this distance from what it names. Where it says Range, an instruction of the
/// statement is out of the range of its fields, and some words may have been added.
#[tactic(auto, using(crate::proofs::Appending::behind_plain))]
pub fn push_words(
    words: &mut Vec<u32>,
    statement: &Statement,
    distance: i64,
) -> Result<(), Unwritten>
    requires range { is_in_range statement.now ≡ true }
    requires distance { IsSigned 31 distance }
    ensures { WritesWords words.old.items words.new.items result distance statement.now }
{
    push_plain(words, statement)?;
    push_sequence(words, instrs(statement, distance))
}
