// SPDX-License-Identifier: Apache-2.0
//! The rules on symbols and names, each over the parts of a file that it speaks of.
ghost use Rattle.std.specs.Prelude.{◌≡◌, not, nat_le};
ghost use Rattle.std.specs.List.{list_any};
ghost use Rattle.elf_rules.specs.declared.elf.Head.{Head};
ghost use Rattle.elf_rules.specs.declared.elf.RawSymbol.{RawSymbol};
ghost use Rattle.elf_rules.specs.Elf.{ends};
ghost use Rattle.elf_rules.specs.ElfRules as rule;

use crate::strings::last_end;
use crate::table::ENTRY_SIZE;
use elf_read::{head_or_none, lies_in};
use elf_rules::{Head, RawSymbol, runs_at};
use sh_types::Section;

const SHT_STRTAB: u32 = 3;

/// The section numbers from here on are no sections.
const SHN_LORESERVE: u16 = 0xff00;

/// Whether there is no table of symbols that can be read, with a string table.
#[tactic(auto, unfolding(elf_rules::specs::ElfRules::bad_table))]
pub fn bad_table(bytes: &[u8], heads: &[Head], table: Option<Head>) -> bool
    ensures { result ≡ rule.bad_table bytes.now heads.now table }
{
    match table {
        None => true,
        Some(table) => {
            let strings = head_or_none(heads, table.link);
            table.each != ENTRY_SIZE
                || table.size % ENTRY_SIZE != 0
                || !lies_in(bytes, table.file_at, table.size)
                || strings.kind != SHT_STRTAB
                || !lies_in(bytes, strings.file_at, strings.size)
        }
    }
}

fn any_runs_at(address: u64, sections: &[Section]) -> bool
    ensures { result ≡ list_any (rule.runs_at address) sections.now }
{
    sections.iter().any(|section| runs_at(address, section))
}

/// Whether the entry is no whole word of an executable section.
pub fn bad_start(entry: u64, sections: &[Section]) -> bool
    ensures { result ≡ rule.bad_start entry sections.now }
{
    entry % 4 != 0 || !any_runs_at(entry, sections)
}

fn any_symbol_from(end: usize, symbols: &[RawSymbol]) -> bool
    ensures { result ≡ list_any (λ (s : RawSymbol). nat_le end s.name) symbols.now }
{
    symbols.iter().any(|symbol| end <= symbol.name as usize)
}

fn any_head_from(end: usize, heads: &[Head]) -> bool
    ensures { result ≡ list_any (λ (h : Head). nat_le end h.name) heads.now }
{
    heads.iter().any(|head| end <= head.name as usize)
}

fn any_open_symbol(names: &[u8], symbols: &[RawSymbol]) -> bool
    ensures { result ≡ list_any (λ (s : RawSymbol). not (ends names.now s.name)) symbols.now }
{
    any_symbol_from(last_end(names), symbols)
}

fn any_open_head(names: &[u8], heads: &[Head]) -> bool
    ensures { result ≡ list_any (λ (h : Head). not (ends names.now h.name)) heads.now }
{
    any_head_from(last_end(names), heads)
}

/// Whether the name of a symbol or of a section does not end in its string table.
pub fn bad_names(
    symbol_names: &[u8],
    section_names: &[u8],
    symbols: &[RawSymbol],
    heads: &[Head],
) -> bool
    ensures { result ≡ rule.bad_names symbol_names.now section_names.now symbols.now heads.now }
{
    any_open_symbol(symbol_names, symbols) || any_open_head(section_names, heads)
}

#[tactic(auto, unfolding(elf_rules::specs::ElfRules::bad_section))]
fn bad_section(count: usize, symbol: &RawSymbol) -> bool
    ensures { result ≡ rule.bad_section count symbol.now }
{
    symbol.section as usize >= count && symbol.section < SHN_LORESERVE
}

/// Whether a symbol's section is none of this many, and no reserved number.
pub fn any_bad_section(count: usize, symbols: &[RawSymbol]) -> bool
    ensures { result ≡ list_any (rule.bad_section count) symbols.now }
{
    symbols.iter().any(|symbol| bad_section(count, symbol))
}
