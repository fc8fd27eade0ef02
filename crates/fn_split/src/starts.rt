// SPDX-License-Identifier: Apache-2.0
//! The starts that symbols give, and the one that is added for the entry.
ghost use Rattle.std.specs.Prelude.{◌≡◌, All, IfOk, IsTrue};
ghost use Rattle.std.specs.List.{list_any};
ghost use Rattle.elf_rules.specs.ElfRules as rules;
ghost use Rattle.elf_rules.specs.Splitting as splitting;
ghost use Rattle.elf_rules.specs.Splitting.{IsBounded};
ghost use Rattle.fn_split.specs.Low.{EndsLow};

use crate::joining::joined;
use elf_rules::{Start, runs_at};
use sh_types::{Section, Symbol};
use std::alloc::{AllocError, Global};

const STT_FUNC: u8 = 2;

fn no_section() -> Section
    ensures { result ≡ splitting.no_section }
{
    Section {
        start: 0,
        size: 0,
        executable: false,
    }
}

/// The section with a number, or one without addresses where there is none.
fn section_by(sections: &[Section], number: u16) -> Section
    requires { All IsBounded sections.now }
    ensures section { result ≡ splitting.section_by sections.now number }
    ensures bounded { IsBounded result }
{
    match sections.get(number as usize) {
        Some(section) => *section,
        None => no_section(),
    }
}

fn start_in(section: Section, home: u64, size: u64, place: Option<usize>) -> Start
    requires executable { IsTrue section.executable }
    requires bounded { IsBounded section }
    ensures start { result ≡ splitting.start_in section home size place }
    ensures low { EndsLow result }
{
    Start {
        home,
        size,
        low: section.start,
        high: section.start + section.size,
        place,
    }
}

/// The starts that symbols give.
fn from_symbols(
    alloc: Global,
    symbols: &[Symbol],
    sections: &[Section],
) -> Result<Vec<Start>, AllocError>
    requires { All IsBounded sections.now }
    ensures starts { IfOk result (λ found. found.items ≡ splitting.starts_from sections.now 0 symbols.now) }
    ensures low { IfOk result (λ found. All EndsLow found.items) }
{
    let mut found = Vec::new(alloc);
    let mut place = 0;
    for symbol in symbols {
        let section = section_by(sections, symbol.section);
        if symbol.kind == STT_FUNC && section.executable {
            found.push(start_in(section, symbol.value, symbol.size, Some(place)))?;
        }
        place += 1;
    }
    Ok(found)
}

#[tactic(auto, unfolding(elf_rules::specs::Splitting::covers))]
fn covers(entry: u64, start: &Start) -> bool
    ensures { result ≡ splitting.covers entry start.now }
{
    start.home == entry
        || (start.home <= entry
            && u128::from(entry) < u128::from(start.home) + u128::from(start.size))
}

fn any_covers(entry: u64, starts: &[Start]) -> bool
    ensures { result ≡ list_any (splitting.covers entry) starts.now }
{
    starts.iter().any(|start| covers(entry, start))
}

/// The start that is added for the entry.
#[tactic(auto, unfolding(elf_rules::specs::Splitting::entry_start))]
fn entry_start(sections: &[Section], entry: u64) -> Start
    requires bounded { All IsBounded sections.now }
    requires entry { IsTrue (list_any (rules.runs_at entry) sections.now) }
    ensures start { result ≡ splitting.entry_start sections.now entry }
    ensures low { EndsLow result }
{
    for section in sections {
        if runs_at(entry, section) {
            return start_in(*section, entry, 0, None);
        }
    }
    start_in(no_section(), entry, 0, None)
}

/// All starts: those of the symbols, and the entry where no function covers it.
#[tactic(auto, unfolding(elf_rules::specs::Splitting::all_starts))]
pub fn all_starts(
    alloc: Global,
    symbols: &[Symbol],
    sections: &[Section],
    entry: u64,
) -> Result<Vec<Start>, AllocError>
    requires bounded { All IsBounded sections.now }
    requires entry { IsTrue (list_any (rules.runs_at entry) sections.now) }
    ensures starts { IfOk result (λ found. found.items ≡ splitting.all_starts symbols.now sections.now entry) }
    ensures low { IfOk result (λ found. All EndsLow found.items) }
{
    let mut starts = from_symbols(alloc, symbols, sections)?;
    let functions = joined(alloc, &starts)?;
    if !any_covers(entry, &functions) {
        starts.push(entry_start(sections, entry))?;
    }
    Ok(starts)
}
