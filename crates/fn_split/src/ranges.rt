// SPDX-License-Identifier: Apache-2.0
//! The ranges of functions: starts of one home join, and a size that is not given runs to the next start.
ghost use Rattle.std.specs.Prelude.{◌≡◌, All, IfOk, IsTrue};
ghost use Rattle.std.specs.List.{list_any};
ghost use Rattle.elf_rules.specs.ElfRules as rules;
ghost use Rattle.elf_rules.specs.Splitting as splitting;
ghost use Rattle.elf_rules.specs.Splitting.{IsBounded};
ghost use Rattle.fn_split.specs.Low.{EndsLow};

use crate::joining::joined;
use crate::starts::all_starts;
use elf_rules::Start;
use sh_types::{Section, Symbol};
use std::alloc::{AllocError, Global};

#[tactic(auto, unfolding(elf_rules::specs::Splitting::resized))]
fn resized(start: Start, next: Option<Start>) -> Start
    requires { EndsLow start }
    ensures resized { result ≡ splitting.resized start next }
    ensures low { EndsLow result }
{
    if start.size != 0 {
        return start;
    }
    let end = match next {
        Some(next) => next.home.min(start.high),
        None => start.high,
    };
    Start {
        size: end.saturating_sub(start.home),
        ..start
    }
}

fn sized(alloc: Global, starts: &[Start]) -> Result<Vec<Start>, AllocError>
    requires { All EndsLow starts.now }
    ensures sized { IfOk result (λ found. found.items ≡ splitting.sized starts.now) }
    ensures low { IfOk result (λ found. All EndsLow found.items) }
{
    let mut found = Vec::new(alloc);
    for i in 0..starts.len() {
        found.push(resized(starts[i], starts.get(i + 1).copied()))?;
    }
    Ok(found)
}

/// The functions with their sizes, by rising homes.
#[tactic(auto, unfolding(elf_rules::specs::Splitting::ranges_of))]
pub fn ranges(
    alloc: Global,
    symbols: &[Symbol],
    sections: &[Section],
    entry: u64,
) -> Result<Vec<Start>, AllocError>
    requires bounded { All IsBounded sections.now }
    requires entry { IsTrue (list_any (rules.runs_at entry) sections.now) }
    ensures ranges { IfOk result (λ found. found.items ≡ splitting.ranges_of symbols.now sections.now entry) }
    ensures low { IfOk result (λ found. All EndsLow found.items) }
{
    let starts = all_starts(alloc, symbols, sections, entry)?;
    let functions = joined(alloc, &starts)?;
    let found = sized(alloc, &functions)?;
    Ok(found)
}
