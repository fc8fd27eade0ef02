// SPDX-License-Identifier: Apache-2.0
//! Functions with their names, or the one that is refused.
ghost use Rattle.std.specs.Prelude.{◌≡◌, ◌<◌, ◌^◌, All, IfOk, IsTrue, map};
ghost use Rattle.std.specs.List.{list_any};
ghost use Rattle.elf_rules.specs.declared.starts.Start.{Start};
ghost use Rattle.elf_rules.specs.ElfRules.{runs_at};
ghost use Rattle.elf_rules.specs.Splitting as splitting;
ghost use Rattle.elf_rules.specs.Splitting.{IsBounded, Splits, functions_of, split_refusal};

use crate::ranges::ranges;
use crate::refusal::refusal;
use elf_rules::{SplitFault, Start};
use sh_types::{Function, Items, Section, Symbol, SymbolName};
use std::alloc::{AllocError, Global};

/// The name of the symbol at a place of the table, or that of the function which is added.
fn name_of(
    alloc: Global,
    symbols: &[Symbol],
    place: Option<usize>,
) -> Result<SymbolName, AllocError>
    ensures { IfOk result (λ name. name ≡ splitting.name_of symbols.now place) }
{
    let Some(place) = place else {
        return SymbolName::from_slice(alloc, b"entry");
    };
    match symbols.get(place) {
        Some(symbol) => symbol.name.share(),
        None => SymbolName::from_slice(alloc, b""),
    }
}

fn named(alloc: Global, symbols: &[Symbol], starts: &[Start]) -> Result<Vec<Function>, AllocError>
    requires { All (λ (f : Start). f.size < 2 ^ 32) starts.now }
    ensures { IfOk result (λ found. found.items ≡ map (splitting.function symbols.now) starts.now) }
{
    let mut found = Vec::new(alloc);
    for start in starts {
        found.push(Function {
            home: start.home,
            size: start.size as u32,
            name: name_of(alloc, symbols, start.place)?,
        })?;
    }
    Ok(found)
}

/// The functions of a file, by rising home addresses, from its symbols (System V gABI, "Symbol Table"), its sections
/// by their numbers, and its entry. A symbol of kind STT_FUNC in an executable section is a function; symbols of one
/// value are one, with the name of the first in the table and the greatest size. Where no function starts at the
/// entry or contains it by the size that is given, the function `entry` is added there. A size 0 runs to the next
/// function's start or to the section's end, whichever is first. Names share the symbols' tables.
///
/// Err names the first function that is refused: its address or its size is no multiple of 4 (Unaligned); it is
/// empty or leaves its section (Size); it begins before the end of the one before (Overlap). Where there is none, it
/// names the first function that has the entry inside, after its start (EntryInside). It is NoMemory where memory is
/// refused. The time is that of sorting the symbols.
#[tactic(auto, unfolding(elf_rules::specs::Splitting::split_refusal, elf_rules::specs::Splitting::functions_of))]
pub fn split(
    alloc: Global,
    symbols: &Items<Symbol>,
    sections: &Items<Section>,
    entry: u64,
) -> Result<Items<Function>, SplitFault>
    requires bounded { All IsBounded sections.now }
    requires entry { IsTrue (list_any (runs_at entry) sections.now) }
    ensures { Splits result (split_refusal symbols.now sections.now entry) (functions_of symbols.now sections.now entry) }
{
    let symbols = symbols.as_slice();
    let starts = ranges(alloc, symbols, sections.as_slice(), entry)?;
    if let Some(fault) = refusal(entry, &starts) {
        return Err(fault);
    }
    let found = named(alloc, symbols, &starts)?;
    Ok(Items::from_vec(found))
}
