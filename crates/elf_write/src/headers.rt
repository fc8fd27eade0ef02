// SPDX-License-Identifier: Apache-2.0
//! The headers at the front of the file (System V gABI, "ELF Header", "Program Header"; RISC-V psABI, "File Header").
ghost use Rattle.std.specs.Prelude.{◌≡◌, ◌++◌, ◌^◌, ◌<◌, OnOk};
ghost use Rattle.elf_write.specs.Tables.{file_header, program_header};
ghost use Rattle.elf_write.specs.Written as written;

use crate::fields::Field::{Byte, Half, Word, Xword};
use crate::fields::put;
use crate::parts::{PAGE, Part, Parts};
use elf_rules::Segment;
use std::alloc::AllocError;

/// \x7fELF, with the lowest byte first.
const MAGIC: u32 = 0x464c_457f;

const ELFCLASS64: u8 = 2;

const ELFDATA2LSB: u8 = 1;

/// EV_CURRENT, in e_ident and in e_version.
const EI_VERSION: u8 = 1;

const EV_CURRENT: u32 = 1;

const ELFOSABI_NONE: u8 = 0;

const ET_EXEC: u16 = 2;

const EM_RISCV: u16 = 243;

/// The bytes of the header.
const HEADER_SIZE: u16 = 64;

/// Where the program headers stand.
const PROGRAMS_AT: u64 = 64;

const PROGRAM_SIZE: u16 = 56;

const PROGRAMS: u16 = 2;

const SECTION_SIZE: u16 = 64;

const SECTIONS: u16 = 8;

/// The number of .shstrtab.
const SHSTRTAB: u16 = 7;

const PT_LOAD: u32 = 1;

// The bits of p_flags.
const PF_X: u32 = 1;

const PF_W: u32 = 2;

const PF_R: u32 = 4;

/// Appends the header: the entry's address, and the place of the section headers.
#[tactic(auto, unfolding(crate::specs::Tables::file_header))]
fn put_header(file: &mut Vec<u8>, entry: u64, heads_at: u64) -> Result<(), AllocError>
    ensures { OnOk result (file.new.items ≡ file.old.items ++ file_header entry heads_at) }
{
    put(
        file,
        &[
            Word(MAGIC),
            Byte(ELFCLASS64),
            Byte(ELFDATA2LSB),
            Byte(EI_VERSION),
            Byte(ELFOSABI_NONE),
            Xword(0),
            Half(ET_EXEC),
            Half(EM_RISCV),
            Word(EV_CURRENT),
            Xword(entry),
            Xword(PROGRAMS_AT),
            Xword(heads_at),
            Word(0),
            Half(HEADER_SIZE),
            Half(PROGRAM_SIZE),
            Half(PROGRAMS),
            Half(SECTION_SIZE),
            Half(SECTIONS),
            Half(SHSTRTAB),
        ],
    )
}

/// Appends the program header of a segment.
#[tactic(auto, unfolding(crate::specs::Tables::program_header))]
fn put_program(file: &mut Vec<u8>, segment: &Segment) -> Result<(), AllocError>
    ensures { OnOk result (file.new.items ≡ file.old.items ++ program_header segment.now) }
{
    put(
        file,
        &[
            Word(PT_LOAD),
            Word(PF_R | if segment.writable { PF_W } else { PF_X }),
            Xword(segment.file_at),
            Xword(segment.start),
            Xword(segment.start),
            Xword(segment.file_size),
            Xword(segment.size),
            Xword(PAGE),
        ],
    )
}

/// The segment of a part.
fn segment(part: &Part, writable: bool) -> Segment
    requires { part.now.at < 2 ^ 60 }
    ensures { result ≡ written.segment_of part.now writable }
{
    Segment {
        start: part.home(),
        file_at: part.at,
        file_size: part.size,
        size: part.size,
        writable,
    }
}

/// Appends the header of the file, with the entry's address, and the program headers of code and data.
#[tactic(auto, unfolding(crate::specs::Written::front))]
pub fn put_front(file: &mut Vec<u8>, entry: u64, parts: &Parts) -> Result<(), AllocError>
    requires text_near { parts.now.text_bytes.at < 2 ^ 60 }
    requires data_near { parts.now.data_bytes.at < 2 ^ 60 }
    ensures { OnOk result (file.new.items ≡ file.old.items ++ written.front entry parts.now) }
{
    put_header(file, entry, parts.heads.at)?;
    put_program(file, &segment(&parts.text_bytes, false))?;
    put_program(file, &segment(&parts.data_bytes, true))
}
