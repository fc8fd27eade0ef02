// SPDX-License-Identifier: Apache-2.0
//! Whole ELF-64 files for tests (System V gABI, "ELF Header", "Program Header", "Section Header", "Symbol Table" and
//! "String Table"): two PT_LOAD headers, the sections .text and .data, empty .rela.text and .rela.data, .symtab,
//! .strtab and .shstrtab, and the section headers at the end.
#![tactic(auto)]

mod first_guest;

pub use first_guest::first_file;
use std::alloc::{AllocError, Global};

/// The address of the code.
pub const HOME: u64 = 0x1_0000;

/// Where the code stands in the file.
const CODE_AT: u64 = 0x1000;

/// A local symbol of kind STT_FUNC in section 1, without its name.
const FUNCTION: u64 = 0x0001_0002_0000_0000;

/// The names of the sections; each is found by its place here.
const SECTION_NAMES: &[u8] =
    b"\0.text\0.data\0.rela.text\0.rela.data\0.symtab\0.strtab\0.shstrtab\0";

/// What a file has: the entry's address, the functions by name and number of words, one behind the other from `HOME`
/// on, all their words, and the bytes of the data.
#[derive(Clone, Copy)]
pub struct Sample<'a> {
    pub entry: u64,
    pub functions: &'a [(&'a str, u32)],
    pub code: &'a [u32],
    pub data: &'a [u8],
}

/// Where the parts stand in the file, and their sizes.
#[derive(Clone, Copy)]
struct Places {
    code_size: u64,
    data_at: u64,
    data_size: u64,
    symbols_at: u64,
    symbols_size: u64,
    strings_at: u64,
    strings_size: u64,
    names_at: u64,
    sections_at: u64,
}

/// The next multiple of 8.
fn up(place: u64) -> u64 {
    place.wrapping_add(7) & !7
}

/// The size of the string table of these names.
fn strings_size(functions: &[(&str, u32)]) -> u64 {
    let mut size: u64 = 1;
    for function in functions {
        size = size.wrapping_add((function.0.len() as u64).wrapping_add(1));
    }
    size
}

fn laid_out(sample: &Sample) -> Places {
    let code_size = (sample.code.len() as u64).wrapping_mul(4);
    let data_at = CODE_AT.wrapping_add(code_size).wrapping_add(0xfff) & !0xfff;
    let data_size = sample.data.len() as u64;
    let symbols_at = up(data_at.wrapping_add(data_size));
    let symbols_size = (sample.functions.len() as u64)
        .wrapping_mul(24)
        .wrapping_add(24);
    let strings_at = symbols_at.wrapping_add(symbols_size);
    let strings_size = strings_size(sample.functions);
    let names_at = up(strings_at.wrapping_add(strings_size));
    Places {
        code_size,
        data_at,
        data_size,
        symbols_at,
        symbols_size,
        strings_at,
        strings_size,
        names_at,
        sections_at: up(names_at.wrapping_add(SECTION_NAMES.len() as u64)),
    }
}

fn put(file: &mut Vec<u8>, words: &[u64]) -> Result<(), AllocError> {
    for word in words {
        file.extend_from_slice(&word.to_le_bytes())?;
    }
    Ok(())
}

/// The header and the two program headers.
fn put_head(file: &mut Vec<u8>, entry: u64, at: &Places) -> Result<(), AllocError> {
    let identity = [0x0001_0102_464c_457f, 0, 0x0000_0001_00f3_0002];
    put(file, &identity)?;
    put(file, &[entry, 64, at.sections_at])?;
    put(file, &[0x0038_0040_0000_0000, 0x0007_0008_0040_0002])?;
    put(file, &[0x0000_0005_0000_0001, CODE_AT, HOME, HOME])?;
    put(file, &[at.code_size, at.code_size, 0x1000])?;
    let home = at.data_at.wrapping_add(0xf000);
    put(file, &[0x0000_0006_0000_0001, at.data_at, home, home])?;
    put(file, &[at.data_size, at.data_size, 0x1000])
}

/// A symbol for each function, behind the empty one.
fn put_symbols(file: &mut Vec<u8>, functions: &[(&str, u32)]) -> Result<(), AllocError> {
    put(file, &[0, 0, 0])?;
    let mut home = HOME;
    let mut name: u64 = 1;
    for function in functions {
        let size = u64::from(function.1) * 4;
        put(file, &[FUNCTION.wrapping_add(name), home, size])?;
        home = home.wrapping_add(size);
        name = name.wrapping_add((function.0.len() as u64).wrapping_add(1));
    }
    Ok(())
}

fn put_strings(file: &mut Vec<u8>, functions: &[(&str, u32)]) -> Result<(), AllocError> {
    file.push(0)?;
    for function in functions {
        file.extend_from_slice(function.0.as_bytes())?;
        file.push(0)?;
    }
    Ok(())
}

/// A section header: the name's place, sh_type, sh_flags, the place in the file and the size, sh_link and sh_info
/// together, sh_addralign and sh_entsize together. Its address is that of .text or .data, else 0.
fn put_section(
    file: &mut Vec<u8>,
    name: u64,
    kind: u64,
    flags: u64,
    part: (u64, u64),
    links: u64,
    entry: (u64, u64),
) -> Result<(), AllocError> {
    let home = if flags == 0 {
        0
    } else {
        part.0.wrapping_add(0xf000)
    };
    put(file, &[name | kind << 32, flags, home, part.0])?;
    put(file, &[part.1, links, entry.0, entry.1])
}

fn put_sections(file: &mut Vec<u8>, functions: u64, at: &Places) -> Result<(), AllocError> {
    put(file, &[0; 8])?;
    put_section(file, 1, 1, 6, (CODE_AT, at.code_size), 0, (4, 0))?;
    put_section(file, 7, 1, 3, (at.data_at, at.data_size), 0, (8, 0))?;
    let empty = (at.symbols_at, 0);
    put_section(file, 13, 4, 0, empty, 0x1_0000_0005, (8, 24))?;
    put_section(file, 24, 4, 0, empty, 0x2_0000_0005, (8, 24))?;
    let links = functions.wrapping_add(1) << 32 | 6;
    let symbols = (at.symbols_at, at.symbols_size);
    put_section(file, 35, 2, 0, symbols, links, (8, 24))?;
    let strings = (at.strings_at, at.strings_size);
    put_section(file, 43, 3, 0, strings, 0, (8, 0))?;
    let names = (at.names_at, SECTION_NAMES.len() as u64);
    put_section(file, 51, 3, 0, names, 0, (8, 0))
}

/// The bytes of the file.
pub fn file_of(alloc: Global, sample: &Sample) -> Result<Vec<u8>, AllocError> {
    let at = laid_out(sample);
    let mut file = Vec::new(alloc);
    put_head(&mut file, sample.entry, &at)?;
    file.resize(CODE_AT as usize, 0)?;
    for word in sample.code {
        file.extend_from_slice(&word.to_le_bytes())?;
    }
    file.resize(at.data_at as usize, 0)?;
    file.extend_from_slice(sample.data)?;
    file.resize(at.symbols_at as usize, 0)?;
    put_symbols(&mut file, sample.functions)?;
    put_strings(&mut file, sample.functions)?;
    file.resize(at.names_at as usize, 0)?;
    file.extend_from_slice(SECTION_NAMES)?;
    file.resize(at.sections_at as usize, 0)?;
    put_sections(&mut file, sample.functions.len() as u64, &at)?;
    Ok(file)
}
