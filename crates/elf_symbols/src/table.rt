// SPDX-License-Identifier: Apache-2.0
//! The symbol table of a file, and its entries.
ghost use Rattle.std.specs.Prelude.{◌≡◌, ◌+◌, ◌≤◌, ◌/◌, length, filter, map, IfOk};
ghost use Rattle.elf_rules.specs.Elf as elf;

use elf_read::raw_symbol;
use elf_rules::{Head, RawSymbol};
use std::alloc::{AllocError, Global};

const SHT_SYMTAB: u32 = 2;

/// How many bytes an entry of the symbol table takes (Elf64_Sym).
pub const ENTRY_SIZE: u64 = 24;

/// The headers of symbol tables.
pub fn symbol_tables(alloc: Global, heads: &[Head]) -> Result<Vec<Head>, AllocError>
    ensures { IfOk result (λ found. found.items ≡ filter elf.is_symtab heads.now) }
{
    let mut found = Vec::new(alloc);
    for head in heads {
        if head.kind == SHT_SYMTAB {
            found.push(*head)?;
        }
    }
    Ok(found)
}

/// The only header of a list that has one.
pub fn only(heads: &[Head]) -> Option<Head>
    ensures { result ≡ elf.only heads.now }
{
    match heads {
        [head] => Some(*head),
        _ => None,
    }
}

/// The symbols of a table as they stand in it.
pub fn entries(alloc: Global, bytes: &[u8], table: &Head) -> Result<Vec<RawSymbol>, AllocError>
    requires { table.now.file_at + table.now.size ≤ length bytes.now }
    ensures { IfOk result (λ found. found.items ≡ map (elf.raw_symbol bytes.now) (elf.places 24 table.now.file_at (table.now.size / 24))) }
{
    let count = table.size / ENTRY_SIZE;
    let mut found = Vec::with_capacity(alloc, count as usize)?;
    let mut place = table.file_at as usize;
    for _ in 0..count {
        found.push(raw_symbol(bytes, place))?;
        place += ENTRY_SIZE as usize;
    }
    Ok(found)
}
