// SPDX-License-Identifier: Apache-2.0
//! Reads the symbols of a file.
ghost use Rattle.std.specs.Prelude.{◌≡◌, IfOk, false, Err};
ghost use Rattle.elf_rules.specs.Elf.{sole_table, table_of, raws_of, symbol_names, symbols_of};
ghost use Rattle.elf_rules.specs.ElfRules.{Reads, IsReadFrom, fails, first_failing, symbol_rules};

use crate::names::named;
use crate::rules::{any_bad_section, bad_names, bad_start, bad_table};
use crate::table::{entries, only, symbol_tables};
use elf_read::{head_or_none, no_head, part_of, section_names};
use elf_rules::{Elf, ElfFault, ElfRule, Head, RawSymbol};
use sh_types::{Items, Symbol};
use std::alloc::{AllocError, Global};

/// The header of the file's symbol table, where there is just one.
fn sole(alloc: Global, elf: &Elf, bytes: &[u8]) -> Result<Option<Head>, AllocError>
    requires { IsReadFrom elf.now bytes.now }
    ensures { IfOk result (λ table. table ≡ sole_table bytes.now) }
{
    let tables = symbol_tables(alloc, elf.heads.as_slice())?;
    Ok(only(&tables))
}

#[tactic(auto, unfolding(elf_rules::specs::ElfRules::fails))]
fn fails_symbols(elf: &Elf, bytes: &[u8], table: Option<Head>) -> bool
    requires read { IsReadFrom elf.now bytes.now }
    requires table { table ≡ sole_table bytes.now }
    ensures { result ≡ fails ElfRule.Symbols bytes.now }
{
    bad_table(bytes, elf.heads.as_slice(), table)
}

#[tactic(auto, unfolding(elf_rules::specs::ElfRules::fails))]
fn fails_start(elf: &Elf, bytes: &[u8]) -> bool
    requires { IsReadFrom elf.now bytes.now }
    ensures { result ≡ fails ElfRule.Start bytes.now }
{
    bad_start(elf.entry, elf.sections.as_slice())
}

#[tactic(auto, unfolding(elf_rules::specs::Elf::table_of))]
fn table_or_none(bytes: &[u8], table: Option<Head>) -> Head
    requires { table ≡ sole_table bytes.now }
    ensures { result ≡ table_of bytes.now }
{
    match table {
        Some(table) => table,
        None => no_head(),
    }
}

/// The symbols as they stand in the table.
#[tactic(auto, using(crate::proofs::Inside::inside), unfolding(elf_rules::specs::Elf::raws_of))]
fn raw_symbols(alloc: Global, bytes: &[u8], table: &Head) -> Result<Vec<RawSymbol>, AllocError>
    requires table { table.now ≡ table_of bytes.now }
    requires fine { fails ElfRule.Symbols bytes.now ≡ false }
    ensures { IfOk result (λ found. found.items ≡ raws_of bytes.now) }
{
    entries(alloc, bytes, table)
}

/// The string table of the symbols.
fn symbol_strings<'a>(elf: &Elf, bytes: &'a [u8], table: &Head) -> &'a [u8]
    requires read { IsReadFrom elf.now bytes.now }
    requires table { table.now ≡ table_of bytes.now }
    ensures { result.now ≡ symbol_names bytes.now }
{
    let head = head_or_none(elf.heads.as_slice(), table.link);
    part_of(bytes, &head)
}

#[tactic(auto, unfolding(elf_rules::specs::ElfRules::fails))]
fn fails_names(elf: &Elf, bytes: &[u8], names: &[u8], raws: &[RawSymbol]) -> bool
    requires read { IsReadFrom elf.now bytes.now }
    requires names { names.now ≡ symbol_names bytes.now }
    requires raws { raws.now ≡ raws_of bytes.now }
    ensures { result ≡ fails ElfRule.NameAt bytes.now }
{
    let section_names = section_names(elf, bytes);
    bad_names(names, section_names, raws, elf.heads.as_slice())
}

#[tactic(auto, using(crate::proofs::Lengths::length_heads_of), unfolding(elf_rules::specs::ElfRules::fails))]
fn fails_sections(elf: &Elf, bytes: &[u8], raws: &[RawSymbol]) -> bool
    requires read { IsReadFrom elf.now bytes.now }
    requires raws { raws.now ≡ raws_of bytes.now }
    ensures { result ≡ fails ElfRule.SectionAt bytes.now }
{
    any_bad_section(elf.heads.len(), raws)
}

#[tactic(auto, unfolding(elf_rules::specs::Elf::symbols_of))]
fn with_names(
    alloc: Global,
    bytes: &[u8],
    names: &[u8],
    raws: &[RawSymbol],
) -> Result<Vec<Symbol>, AllocError>
    requires names { names.now ≡ symbol_names bytes.now }
    requires raws { raws.now ≡ raws_of bytes.now }
    ensures { IfOk result (λ found. found.items ≡ symbols_of bytes.now) }
{
    named(alloc, names, raws)
}

/// The symbols of a file (System V gABI, "Symbol Table"), in the order of its symbol table, from the file's tables and
/// its bytes. The names share one copy of their string table, and the end of each is found by a binary search.
///
/// Errors: the first of the rules Symbols, Start, NameAt and SectionAt that fails; and want of memory, which is also
/// answered where the string table has 2^32 bytes or more.
pub fn symbols(alloc: Global, elf: &Elf, bytes: &[u8]) -> Result<Items<Symbol>, ElfFault>
    requires { IsReadFrom elf.now bytes.now }
    ensures { Reads result (first_failing symbol_rules bytes.now) (symbols_of bytes.now) }
{
    let sole = sole(alloc, elf, bytes)?;
    if fails_symbols(elf, bytes, sole) {
        return refused(ElfRule::Symbols);
    }
    if fails_start(elf, bytes) {
        return refused(ElfRule::Start);
    }
    let table = table_or_none(bytes, sole);
    let raws = raw_symbols(alloc, bytes, &table)?;
    let names = symbol_strings(elf, bytes, &table);
    if fails_names(elf, bytes, names, &raws) {
        return refused(ElfRule::NameAt);
    }
    if fails_sections(elf, bytes, &raws) {
        return refused(ElfRule::SectionAt);
    }
    Ok(Items::from_vec(with_names(alloc, bytes, names, &raws)?))
}

fn refused(rule: ElfRule) -> Result<Items<Symbol>, ElfFault>
    ensures { result ≡ Err (ElfFault.Rule rule) }
{
    Err(ElfFault::Rule { rule })
}
