// SPDX-License-Identifier: Apache-2.0
//! Writes the file.
ghost use Rattle.std.specs.Prelude.{◌≡◌, ◌++◌, ◌^◌, ◌<◌, ◌∷◌, [], true, false, length, IfOk, OnOk};
ghost use Rattle.elf_write.specs.Parts.{home_of, marks_in, names_in, parts_of, section_names, string_table};
ghost use Rattle.elf_write.specs.Tables.{records, symbol_table};
ghost use Rattle.elf_write.specs.Writable.{IsWritable};
ghost use Rattle.elf_write.specs.Written.{code, elf_file, entry_home as entry_home_of, placed, sections as sections_of, section_headers};

use crate::code::put_code;
use crate::fields::fill;
use crate::headers::put_front;
use crate::parts::{Parts, laid_out};
use crate::records::{marks_by_place, put_records};
use crate::sections::{put_sections, sections};
use crate::strings::{put_section_names, put_strings};
use crate::symbols::put_symbols;
use sh_types::{Bytes, NoMemory, Object};
use std::alloc::{AllocError, Global};

/// Where the entry function stands.
fn entry_home(object: &Object) -> u64
    requires { object.now.entry < length object.now.functions }
    ensures { result ≡ entry_home_of object.now }
{
    object.functions.as_slice()[object.entry as usize].home
}

/// Appends code and data.
#[tactic(auto, unfolding(crate::specs::Written::placed))]
fn put_memory(file: &mut Vec<u8>, object: &Object, parts: &Parts) -> Result<(), AllocError>
    ensures { OnOk result (file.new.items ≡ placed file.old.items ((parts.now.text_bytes, code object.now.words) ∷ (parts.now.data_bytes, object.now.bytes) ∷ [])) }
{
    fill(file, parts.text_bytes.at)?;
    put_code(file, object.words.as_slice())?;
    fill(file, parts.data_bytes.at)?;
    file.extend_from_slice(object.bytes.as_slice())
}

/// Appends the records.
#[tactic(auto, unfolding(crate::specs::Written::placed))]
fn put_marks(
    alloc: Global,
    file: &mut Vec<u8>,
    object: &Object,
    parts: &Parts,
) -> Result<(), AllocError>
    requires writable { IsWritable object.now }
    requires text_near { parts.now.text_bytes.at < 2 ^ 60 }
    requires data_near { parts.now.data_bytes.at < 2 ^ 60 }
    ensures { OnOk result (file.new.items ≡ placed file.old.items ((parts.now.text_records, records (home_of parts.now.text_bytes) (marks_in true object.now.marks)) ∷ (parts.now.data_records, records (home_of parts.now.data_bytes) (marks_in false object.now.marks)) ∷ [])) }
{
    let marks = object.marks.as_slice();
    fill(file, parts.text_records.at)?;
    let in_text = marks_by_place(alloc, true, marks)?;
    put_records(file, parts.text_bytes.home(), &in_text)?;
    fill(file, parts.data_records.at)?;
    let in_data = marks_by_place(alloc, false, marks)?;
    put_records(file, parts.data_bytes.home(), &in_data)
}

/// Appends the symbols, their names and the names of the sections.
#[tactic(auto, unfolding(crate::specs::Written::placed))]
fn put_names(file: &mut Vec<u8>, object: &Object, parts: &Parts) -> Result<(), AllocError>
    requires { IsWritable object.now }
    ensures { OnOk result (file.new.items ≡ placed file.old.items ((parts.now.symbols, symbol_table 0 object.now.symbols) ∷ (parts.now.strings, string_table (names_in object.now.symbols)) ∷ (parts.now.names, string_table section_names) ∷ [])) }
{
    let symbols = object.symbols.as_slice();
    fill(file, parts.symbols.at)?;
    put_symbols(file, symbols)?;
    fill(file, parts.strings.at)?;
    put_strings(file, symbols)?;
    fill(file, parts.names.at)?;
    put_section_names(file)
}

/// Appends the section headers.
#[tactic(auto, unfolding(crate::specs::Written::placed))]
fn put_heads(file: &mut Vec<u8>, parts: &Parts, symbols: u32) -> Result<(), AllocError>
    requires text_near { parts.now.text_bytes.at < 2 ^ 60 }
    requires data_near { parts.now.data_bytes.at < 2 ^ 60 }
    ensures { OnOk result (file.new.items ≡ placed file.old.items ((parts.now.heads, section_headers (sections_of parts.now symbols)) ∷ [])) }
{
    fill(file, parts.heads.at)?;
    put_sections(file, &sections(parts, symbols))
}

/// The bytes of the file.
#[tactic(auto, using(crate::proofs::Marks::few_symbols), unfolding(crate::specs::Written::file_of, crate::specs::Written::placed))]
fn file(alloc: Global, object: &Object) -> Result<Vec<u8>, AllocError>
    requires { IsWritable object.now }
    ensures { IfOk result (λ file. file.items ≡ elf_file object.now) }
{
    let parts = laid_out(object);
    let size = parts.heads.at + parts.heads.size;
    let mut file = Vec::with_capacity(alloc, size as usize)?;
    put_front(&mut file, entry_home(object), &parts)?;
    put_memory(&mut file, object, &parts)?;
    put_marks(alloc, &mut file, object, &parts)?;
    put_names(&mut file, object, &parts)?;
    put_heads(&mut file, &parts, object.symbols.len() as u32)?;
    Ok(file)
}

/// The ELF-64 file of an object (System V gABI, "Object Files"; RISC-V psABI, "ELF Object Files"): an executable of
/// two segments, its sections in eight headers at the end. Code stands at address 0x10000.
///
/// Errors: want of memory. The memory of the whole file is taken at once.
pub fn write_elf(alloc: Global, object: &Object) -> Result<Bytes, NoMemory>
    requires { IsWritable object.now }
    ensures { IfOk result (λ file. file ≡ elf_file object.now) }
{
    Ok(Bytes::from_vec(file(alloc, object)?))
}
