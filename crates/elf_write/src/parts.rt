// SPDX-License-Identifier: Apache-2.0
//! The places and the sizes of the parts of a file.
ghost use Rattle.std.specs.Prelude.{◌≡◌, ◌+◌, ◌*◌, ◌^◌, ◌<◌, filter, length};
ghost use Rattle.std.specs.List.{concat};
ghost use Rattle.elf_write.specs.Parts as part;
ghost use Rattle.elf_write.specs.Writable.{IsWritable};

use crate::strings::{SECTION_NAMES, strings_size};
use sh_types::{Items, Mark, Object};

/// Where the code stands in the file.
const TEXT_AT: u64 = 0x1000;

/// What the address of code and data is more than the place in the file.
const HOME_ABOVE_PLACE: u64 = 0xf000;

/// The alignment of code and data, in the file and in memory.
pub const PAGE: u64 = 0x1000;

/// The bytes of an entry of .rela.text and .rela.data, and of .symtab.
pub const ENTRY_SIZE: u64 = 24;

/// The bytes of the eight section headers.
const HEADS_SIZE: u64 = 8 * 64;

/// A part of the file: the place where it begins, and how many bytes it has.
#[derive(Clone, Copy)]
pub struct Part {
    pub at: u64,
    pub size: u64,
}

impl Part {
    /// The address of a part that becomes memory.
    pub fn home(&self) -> u64
        requires { self.now.at < 2 ^ 60 }
        ensures { result ≡ part.home_of self.now }
    {
        HOME_ABOVE_PLACE + self.at
    }
}

/// The parts behind the headers, in the order of the file. The last are the section headers.
#[derive(Clone, Copy)]
pub struct Parts {
    pub text_bytes: Part,
    pub data_bytes: Part,
    pub text_records: Part,
    pub data_records: Part,
    pub symbols: Part,
    pub strings: Part,
    pub names: Part,
    pub heads: Part,
}

/// A part of this size behind another.
#[tactic(auto, unfolding(crate::specs::Parts::behind))]
fn behind(before: Part, size: u64) -> Part
    requires { before.at + before.size < 2 ^ 60 }
    ensures value { result ≡ part.behind before size }
    ensures near { result.at < before.at + before.size + 8 }
    ensures size { result.size ≡ size }
{
    Part {
        at: (before.at + before.size).next_multiple_of(8),
        size,
    }
}

/// How many words the functions have.
fn word_count(words: &[Items<u32>]) -> u64
    requires { length (concat words.now) < 2 ^ 60 }
    ensures { result ≡ length (concat words.now) }
{
    let mut count = 0;
    for function in words {
        count += function.len() as u64;
    }
    count
}

/// How many of the marks are in the code, or how many in the data.
fn mark_count(in_text: bool, marks: &[Mark]) -> u64
    ensures { result ≡ length (filter (part.is_in in_text) marks.now) }
{
    let mut count = 0;
    for mark in marks {
        if mark.in_text == in_text {
            count += 1;
        }
    }
    count
}

/// The part of the code, and that of the data.
#[tactic(auto, unfolding(crate::specs::Parts::text_part, crate::specs::Parts::data_part))]
fn loaded_parts(object: &Object) -> (Part, Part)
    requires { IsWritable object.now }
    ensures text { result.0 ≡ part.text_part object.now }
    ensures data_is { result.1 ≡ part.data_part object.now }
    ensures near { result.1.at < 2 ^ 28 }
    ensures text_near { result.0.at < 2 ^ 28 }
    ensures size { result.1.size < 2 ^ 28 }
{
    let text = Part {
        at: TEXT_AT,
        size: word_count(object.words.as_slice()) * 4,
    };
    let data = Part {
        at: (text.at + text.size).next_multiple_of(PAGE),
        size: object.bytes.len() as u64,
    };
    (text, data)
}

/// The bytes of .rela.text, or of .rela.data.
#[tactic(auto, using(crate::proofs::Sorting::length_by_place), unfolding(crate::specs::Parts::marks_in))]
fn records_size(in_text: bool, object: &Object) -> u64
    requires { IsWritable object.now }
    ensures value { result ≡ 24 * length (part.marks_in in_text object.now.marks) }
    ensures small { result < 2 ^ 37 }
{
    ENTRY_SIZE * mark_count(in_text, object.marks.as_slice())
}

/// The bytes of .symtab.
#[tactic(auto, using(crate::proofs::Marks::few_symbols))]
fn symbols_size(object: &Object) -> u64
    requires { IsWritable object.now }
    ensures value { result ≡ 24 * length object.now.symbols }
    ensures small { result < 2 ^ 37 }
{
    ENTRY_SIZE * object.symbols.len() as u64
}

/// The parts of the file of an object.
#[tactic(auto, unfolding(crate::specs::Parts::parts_of, crate::specs::Parts::text_records_part, crate::specs::Parts::data_records_part, crate::specs::Parts::symbols_part, crate::specs::Parts::strings_part, crate::specs::Parts::names_part, crate::specs::Parts::heads_part))]
pub fn laid_out(object: &Object) -> Parts
    requires { IsWritable object.now }
    ensures value { result ≡ part.parts_of object.now }
    ensures text_near { result.text_bytes.at < 2 ^ 28 }
    ensures data_near { result.data_bytes.at < 2 ^ 28 }
    ensures end { result.heads.at + result.heads.size < 2 ^ 60 }
{
    let (text, data) = loaded_parts(object);
    let text_records = behind(data, records_size(true, object));
    let data_records = behind(text_records, records_size(false, object));
    let symbols = behind(data_records, symbols_size(object));
    let strings = behind(symbols, strings_size(object.symbols.as_slice()));
    let names = behind(strings, SECTION_NAMES.len() as u64);
    Parts {
        text_bytes: text,
        data_bytes: data,
        text_records,
        data_records,
        symbols,
        strings,
        names,
        heads: behind(names, HEADS_SIZE),
    }
}
