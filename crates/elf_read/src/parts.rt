// SPDX-License-Identifier: Apache-2.0
//! Section headers by their numbers, and the bytes of sections.
ghost use Rattle.std.specs.Prelude.{◌≡◌, get_or};
ghost use Rattle.elf_rules.specs.Elf as elf_specs;
ghost use Rattle.elf_rules.specs.ElfRules.{IsReadFrom};

use crate::fields::lies_in;
use elf_rules::{Elf, Head};

/// What stands for a header where there is none.
pub fn no_head() -> Head
    ensures { result ≡ elf_specs.no_head }
{
    Head {
        name: 0,
        kind: 0,
        flags: 0,
        start: 0,
        file_at: 0,
        size: 0,
        link: 0,
        info: 0,
        each: 0,
    }
}

/// A header by its number, and one that is all zeros where there is none.
pub fn head_or_none(heads: &[Head], number: u32) -> Head
    ensures { result ≡ get_or heads.now number elf_specs.no_head }
{
    match heads.get(number as usize) {
        Some(head) => *head,
        None => no_head(),
    }
}

/// The bytes of a section, none where they are not inside the file.
#[tactic(auto, unfolding(elf_rules::specs::Elf::part_of))]
pub fn part_of<'a>(bytes: &'a [u8], head: &Head) -> &'a [u8]
    ensures { result.now ≡ elf_specs.part_of bytes.now head.now }
{
    if lies_in(bytes, head.file_at, head.size) {
        let start = head.file_at as usize;
        return &bytes[start..start + head.size as usize];
    }
    &bytes[..0]
}

/// The string table of the sections' names (e_shstrndx), from the tables of the file and its bytes.
pub fn section_names<'a>(elf: &Elf, bytes: &'a [u8]) -> &'a [u8]
    requires { IsReadFrom elf.now bytes.now }
    ensures { result.now ≡ elf_specs.section_names bytes.now }
{
    let head = head_or_none(elf.heads.as_slice(), elf.names);
    part_of(bytes, &head)
}
