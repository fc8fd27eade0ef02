// SPDX-License-Identifier: Apache-2.0
//! The order in which a file is refused before its frames are looked at, and what is read of one that is not.
ghost use Rattle.std.specs.Prelude.{◌≡◌, ◌≤◌, All, IsTrue, None, length};
ghost use Rattle.std.specs.List.{list_any};
ghost use Rattle.sh_types.specs.Limits.{most_functions};
ghost use Rattle.elf_rules.specs.Bindable.{Passes, binding_refusal, by_rule, by_split};
ghost use Rattle.elf_rules.specs.Elf.{entry_of, sections_of, symbols_of};
ghost use Rattle.elf_rules.specs.ElfRules.{IsReadFrom, first_failing, reloc_rules, runs_at, symbol_rules, table_rules};
ghost use Rattle.elf_rules.specs.Relocs.{relocs_of};
ghost use Rattle.elf_rules.specs.Splitting.{IsBounded, functions_of, split_refusal};
ghost use Rattle.image_binding.specs.Stages.{AreFunctions, IsBindableFile, elf_fault, function_refusal, later_refusal, limit_refusal, split_fault};

use crate::agreeing::agreeing;
use crate::limits::{limited_code, limited_functions, limited_memory};
use elf_read::read_elf;
use elf_rules::{Elf, ElfFault, LoadFault, SplitFault};
use elf_symbols::symbols;
use fn_split::split;
use load_law::{entries_lie_in_code, sections_are_bounded, segments_lie_in_files};
use rv_relocs::relocs;
use sh_types::{Function, Items, Reloc, Symbol};
use std::alloc::Global;

/// The tables, the functions and the records of a file that can be bound.
#[derive(Drop)]
pub struct BindableFile {
    pub elf: Elf,
    pub functions: Items<Function>,
    pub relocs: Items<Reloc>,
}

fn elf_fault(fault: ElfFault) -> LoadFault
    ensures { result ≡ elf_fault fault }
{
    match fault {
        ElfFault::NoMemory => LoadFault::NoMemory,
        ElfFault::Rule { rule } => LoadFault::Elf { rule },
    }
}

fn split_fault(fault: SplitFault) -> LoadFault
    ensures { result ≡ split_fault fault }
{
    match fault {
        SplitFault::NoMemory => LoadFault::NoMemory,
        SplitFault::Rule { home, rule } => LoadFault::Split { home, rule },
    }
}

/// The tables, or what the rules on them refuse.
fn tables(alloc: Global, bytes: &[u8]) -> Result<Elf, LoadFault>
    ensures { Passes result (by_rule (first_failing table_rules bytes.now)) (λ elf. IsReadFrom elf bytes.now) }
{
    read_elf(alloc, bytes).map_err(elf_fault)
}

/// The symbols, or what the rules on them refuse.
fn named_symbols(alloc: Global, bytes: &[u8], elf: &Elf) -> Result<Items<Symbol>, LoadFault>
    requires { IsReadFrom elf.now bytes.now }
    ensures { Passes result (by_rule (first_failing symbol_rules bytes.now)) (λ found. found ≡ symbols_of bytes.now) }
{
    symbols(alloc, elf, bytes).map_err(elf_fault)
}

/// The records, or what the rules on them refuse.
fn records(
    alloc: Global,
    bytes: &[u8],
    elf: &Elf,
    symbols: &Items<Symbol>,
) -> Result<Items<Reloc>, LoadFault>
    requires read { IsReadFrom elf.now bytes.now }
    requires symbols { symbols.now ≡ symbols_of bytes.now }
    ensures { Passes result (by_rule (first_failing reloc_rules bytes.now)) (λ found. found ≡ relocs_of bytes.now) }
{
    relocs(alloc, elf, bytes, symbols).map_err(elf_fault)
}

/// The functions, or the one that splitting refuses.
fn split_functions(
    alloc: Global,
    elf: &Elf,
    symbols: &Items<Symbol>,
) -> Result<Items<Function>, LoadFault>
    requires bounded { All IsBounded elf.now.sections }
    requires entry { IsTrue (list_any (runs_at elf.now.entry) elf.now.sections) }
    ensures { Passes result (by_split (split_refusal symbols.now elf.now.sections elf.now.entry)) (λ found. (split_refusal symbols.now elf.now.sections elf.now.entry ≡ None) × (found ≡ functions_of symbols.now elf.now.sections elf.now.entry)) }
{
    split(alloc, symbols, &elf.sections, elf.entry).map_err(split_fault)
}

/// Refuses too many functions, then too large ones.
#[tactic(auto, unfolding(crate::specs::Stages::limit_refusal))]
fn within_limits(functions: &[Function]) -> Result<(), LoadFault>
    ensures { Passes result (limit_refusal functions.now) (λ _. length functions.now ≤ most_functions) }
{
    limited_functions(functions)?;
    limited_code(functions)
}

/// The functions, or what splitting and the limits on functions refuse.
#[tactic(auto, unfolding(crate::specs::Stages::function_refusal))]
fn few_functions(
    alloc: Global,
    elf: &Elf,
    symbols: &Items<Symbol>,
) -> Result<Items<Function>, LoadFault>
    requires bounded { All IsBounded elf.now.sections }
    requires entry { IsTrue (list_any (runs_at elf.now.entry) elf.now.sections) }
    ensures { Passes result (function_refusal symbols.now elf.now.sections elf.now.entry) (AreFunctions symbols.now elf.now.sections elf.now.entry) }
{
    let functions = split_functions(alloc, elf, symbols)?;
    within_limits(functions.as_slice())?;
    Ok(functions)
}

/// The functions of a file whose symbols hold, or what splitting and the limits on functions refuse.
fn file_functions(
    alloc: Global,
    bytes: &[u8],
    elf: &Elf,
    symbols: &Items<Symbol>,
) -> Result<Items<Function>, LoadFault>
    requires read { IsReadFrom elf.now bytes.now }
    requires symbols { symbols.now ≡ symbols_of bytes.now }
    requires started { first_failing symbol_rules bytes.now ≡ None }
    ensures { Passes result (function_refusal (symbols_of bytes.now) (sections_of bytes.now) (entry_of bytes.now)) (AreFunctions (symbols_of bytes.now) (sections_of bytes.now) (entry_of bytes.now)) }
{
    sections_are_bounded();
    entries_lie_in_code();
    few_functions(alloc, elf, symbols)
}

/// The functions of a file whose records hold, or the first refusal behind those of the rules on records.
#[tactic(auto, unfolding(crate::specs::Stages::later_refusal))]
fn functions_of(
    alloc: Global,
    bytes: &[u8],
    elf: &Elf,
    symbols: &Items<Symbol>,
    relocs: &Items<Reloc>,
) -> Result<Items<Function>, LoadFault>
    requires read { IsReadFrom elf.now bytes.now }
    requires symbols { symbols.now ≡ symbols_of bytes.now }
    requires relocs { relocs.now ≡ relocs_of bytes.now }
    requires started { first_failing symbol_rules bytes.now ≡ None }
    requires recorded { first_failing reloc_rules bytes.now ≡ None }
    ensures { Passes result (later_refusal bytes.now) (AreFunctions (symbols_of bytes.now) (sections_of bytes.now) (entry_of bytes.now)) }
{
    segments_lie_in_files();
    limited_memory(elf.segments.as_slice())?;
    let functions = file_functions(alloc, bytes, elf, symbols)?;
    agreeing(alloc, bytes, elf, relocs)?;
    Ok(functions)
}

/// The tables, functions and records of a file that can be bound, or the first refusal.
pub fn bindable(alloc: Global, bytes: &[u8]) -> Result<BindableFile, LoadFault>
    ensures { Passes result (binding_refusal bytes.now) (IsBindableFile bytes.now) }
{
    let elf = tables(alloc, bytes)?;
    let symbols = named_symbols(alloc, bytes, &elf)?;
    let relocs = records(alloc, bytes, &elf, &symbols)?;
    let functions = functions_of(alloc, bytes, &elf, &symbols, &relocs)?;
    Ok(BindableFile {
        elf,
        functions,
        relocs,
    })
}
