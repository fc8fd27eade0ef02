// SPDX-License-Identifier: Apache-2.0
//! The symbol table (System V gABI, "Symbol Table").
ghost use Rattle.std.specs.Prelude.{◌≡◌, ◌++◌, ◌^◌, ◌<◌, length, OnOk};
ghost use Rattle.elf_write.specs.Parts.{string_table, names_in};
ghost use Rattle.elf_write.specs.Tables.{symbol_entry, symbol_table};

use crate::fields::Field::{Byte, Half, Word, Xword};
use crate::fields::put;
use sh_types::Symbol;
use std::alloc::AllocError;

/// STV_DEFAULT.
const VISIBILITY: u8 = 0;

/// Appends a symbol with its name at a place of the string table.
#[tactic(auto, unfolding(crate::specs::Tables::symbol_entry))]
fn put_symbol(file: &mut Vec<u8>, name: u32, symbol: &Symbol) -> Result<(), AllocError>
    ensures { OnOk result (file.new.items ≡ file.old.items ++ symbol_entry name symbol.now) }
{
    put(
        file,
        &[
            Word(name),
            Byte(symbol.kind % 16),
            Byte(VISIBILITY),
            Half(symbol.section),
            Xword(symbol.value),
            Xword(symbol.size),
        ],
    )
}

/// Appends the symbols, whose names stand in their order in the string table.
#[tactic(auto, unfolding(crate::specs::Parts::string_table, crate::specs::Tables::symbol_table))]
pub fn put_symbols(file: &mut Vec<u8>, symbols: &[Symbol]) -> Result<(), AllocError>
    requires { length (string_table (names_in symbols.now)) < 2 ^ 32 }
    ensures { OnOk result (file.new.items ≡ file.old.items ++ symbol_table 0 symbols.now) }
{
    let mut name = 0;
    for symbol in symbols {
        put_symbol(file, name, symbol)?;
        name += symbol.name.as_slice().len() as u32 + 1;
    }
    Ok(())
}
