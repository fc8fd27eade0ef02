// SPDX-License-Identifier: Apache-2.0
//! String tables (System V gABI, "String Table").
ghost use Rattle.std.specs.Prelude.{◌≡◌, ◌++◌, ◌^◌, ◌<◌, length, OnOk};
ghost use Rattle.elf_write.specs.Parts.{string_table, names_in, section_names};

use sh_types::Symbol;
use std::alloc::AllocError;

/// The names of the sections.
pub const SECTION_NAMES: &[u8] =
    b"\0.text\0.data\0.rela.text\0.rela.data\0.symtab\0.strtab\0.shstrtab\0";

/// The bytes of the string table of the symbols.
#[tactic(auto, unfolding(crate::specs::Parts::string_table))]
pub fn strings_size(symbols: &[Symbol]) -> u64
    requires { length (string_table (names_in symbols.now)) < 2 ^ 32 }
    ensures value { result ≡ length (string_table (names_in symbols.now)) }
    ensures small { result < 2 ^ 32 }
{
    let mut size = 0;
    for symbol in symbols {
        size += symbol.name.as_slice().len() as u64 + 1;
    }
    size
}

/// Appends the names of the symbols, each with a zero byte behind it.
#[tactic(auto, unfolding(crate::specs::Parts::string_table))]
pub fn put_strings(file: &mut Vec<u8>, symbols: &[Symbol]) -> Result<(), AllocError>
    ensures { OnOk result (file.new.items ≡ file.old.items ++ string_table (names_in symbols.now)) }
{
    for symbol in symbols {
        file.extend_from_slice(symbol.name.as_slice())?;
        file.push(0)?;
    }
    Ok(())
}

/// Appends the names of the sections.
#[tactic(auto, unfolding(crate::specs::Parts::string_table))]
pub fn put_section_names(file: &mut Vec<u8>) -> Result<(), AllocError>
    ensures { OnOk result (file.new.items ≡ file.old.items ++ string_table section_names) }
{
    file.extend_from_slice(SECTION_NAMES)
}
