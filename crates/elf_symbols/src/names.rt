// SPDX-License-Identifier: Apache-2.0
//! Symbols with their names.
ghost use Rattle.std.specs.Prelude.{◌≡◌, map, IfOk};
ghost use Rattle.elf_rules.specs.Elf as elf;

use crate::strings::Names;
use elf_rules::RawSymbol;
use sh_types::Symbol;
use std::alloc::{AllocError, Global};

fn symbol(names: &Names, raw: &RawSymbol) -> Result<Symbol, AllocError>
    ensures { IfOk result (λ found. found ≡ elf.symbol names.now raw.now) }
{
    Ok(Symbol {
        name: names.name(raw.name)?,
        kind: raw.kind,
        section: raw.section,
        value: raw.value,
        size: raw.size,
    })
}

/// The symbols with their names from a string table.
pub fn named(alloc: Global, names: &[u8], raws: &[RawSymbol]) -> Result<Vec<Symbol>, AllocError>
    ensures { IfOk result (λ found. found.items ≡ map (elf.symbol names.now) raws.now) }
{
    let names = Names::new(alloc, names)?;
    let mut found = Vec::with_capacity(alloc, raws.len())?;
    for raw in raws {
        found.push(symbol(&names, raw)?)?;
    }
    Ok(found)
}
