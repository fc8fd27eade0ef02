// SPDX-License-Identifier: Apache-2.0
//! Section headers (System V gABI, "Section Header").
ghost use Rattle.std.specs.Prelude.{◌≡◌, ◌++◌, ◌^◌, ◌<◌, OnOk};
ghost use Rattle.elf_write.specs.Tables.{section_header};
ghost use Rattle.elf_write.specs.Written as written;

use crate::fields::Field::{Word, Xword};
use crate::fields::put;
use crate::parts::{ENTRY_SIZE, Part, Parts};
use elf_rules::Head;
use std::alloc::AllocError;

// The values of sh_type.
const SHT_PROGBITS: u32 = 1;

const SHT_SYMTAB: u32 = 2;

const SHT_STRTAB: u32 = 3;

const SHT_RELA: u32 = 4;

// The bits of sh_flags.
const SHF_WRITE: u64 = 1;

const SHF_ALLOC: u64 = 2;

const SHF_EXECINSTR: u64 = 4;

// The numbers of sections that others name.
const TEXT: u32 = 1;

const DATA: u32 = 2;

const SYMTAB: u32 = 5;

const STRTAB: u32 = 6;

/// Appends a section's header.
#[tactic(auto, unfolding(crate::specs::Tables::section_header))]
fn put_head(file: &mut Vec<u8>, align: u64, head: &Head) -> Result<(), AllocError>
    ensures { OnOk result (file.new.items ≡ file.old.items ++ section_header align head.now) }
{
    put(
        file,
        &[
            Word(head.name),
            Word(head.kind),
            Xword(head.flags),
            Xword(head.start),
            Xword(head.file_at),
            Xword(head.size),
            Word(head.link),
            Word(head.info),
            Xword(align),
            Xword(head.each),
        ],
    )
}

/// The header of a section that becomes memory.
fn loaded(name: u32, flags: u64, part: &Part) -> Head
    requires { part.now.at < 2 ^ 60 }
    ensures { result ≡ written.loaded name flags part.now }
{
    Head {
        name,
        kind: SHT_PROGBITS,
        flags,
        start: part.home(),
        file_at: part.at,
        size: part.size,
        link: 0,
        info: 0,
        each: 0,
    }
}

/// The header of a section that becomes no memory.
fn unloaded(name: u32, kind: u32, part: &Part, link: u32, info: u32, each: u64) -> Head
    ensures { result ≡ written.unloaded name kind part.now link info each }
{
    Head {
        name,
        kind,
        flags: 0,
        start: 0,
        file_at: part.at,
        size: part.size,
        link,
        info,
        each,
    }
}

/// The sections with their alignments, by their numbers, where there are so many symbols.
#[tactic(auto, unfolding(crate::specs::Written::sections))]
pub fn sections(parts: &Parts, symbols: u32) -> [(u64, Head); 8]
    requires text_near { parts.now.text_bytes.at < 2 ^ 60 }
    requires data_near { parts.now.data_bytes.at < 2 ^ 60 }
    ensures { result ≡ written.sections parts.now symbols }
{
    let each = ENTRY_SIZE;
    let null = Head {
        name: 0,
        kind: 0,
        flags: 0,
        start: 0,
        file_at: 0,
        size: 0,
        link: 0,
        info: 0,
        each: 0,
    };
    [
        (0, null),
        (4, loaded(1, SHF_ALLOC | SHF_EXECINSTR, &parts.text_bytes)),
        (8, loaded(7, SHF_WRITE | SHF_ALLOC, &parts.data_bytes)),
        (
            8,
            unloaded(13, SHT_RELA, &parts.text_records, SYMTAB, TEXT, each),
        ),
        (
            8,
            unloaded(24, SHT_RELA, &parts.data_records, SYMTAB, DATA, each),
        ),
        (
            8,
            unloaded(35, SHT_SYMTAB, &parts.symbols, STRTAB, symbols, each),
        ),
        (8, unloaded(43, SHT_STRTAB, &parts.strings, 0, 0, 0)),
        (8, unloaded(51, SHT_STRTAB, &parts.names, 0, 0, 0)),
    ]
}

/// Appends the headers of sections with these alignments.
#[tactic(auto, unfolding(crate::specs::Written::section_headers))]
pub fn put_sections(file: &mut Vec<u8>, sections: &[(u64, Head)]) -> Result<(), AllocError>
    ensures { OnOk result (file.new.items ≡ file.old.items ++ written.section_headers sections.now) }
{
    for (align, head) in sections {
        put_head(file, *align, head)?;
    }
    Ok(())
}
