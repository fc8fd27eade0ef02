// SPDX-License-Identifier: Apache-2.0
//! Numbers in a file, and the zeros between its parts.
ghost use Rattle.std.specs.Prelude.{◌≡◌, ◌++◌, ◌-◌, map, length, replicate, OnOk};
ghost use Rattle.elf_write.specs.Fields.{fields as bytes_of, little, sized};

use std::alloc::AllocError;

/// A number of one, two, four or eight bytes (System V gABI, "Data Representation"). The last three are Elf64_Half,
/// Elf64_Word and Elf64_Xword; Elf64_Addr and Elf64_Off have the size of an Xword.
#[derive(Clone, Copy)]
pub enum Field {
    Byte(u8),
    Half(u16),
    Word(u32),
    Xword(u64),
}

#[tactic(auto, using(crate::proofs::Little::little_one))]
fn put_byte(file: &mut Vec<u8>, value: u8) -> Result<(), AllocError>
    ensures { OnOk result (file.new.items ≡ file.old.items ++ little 1 value) }
{
    file.extend_from_slice(&value.to_le_bytes())
}

#[tactic(auto, using(crate::proofs::Little::little_two))]
fn put_half(file: &mut Vec<u8>, value: u16) -> Result<(), AllocError>
    ensures { OnOk result (file.new.items ≡ file.old.items ++ little 2 value) }
{
    file.extend_from_slice(&value.to_le_bytes())
}

/// Appends a number of four bytes, the lowest first.
#[tactic(auto, using(crate::proofs::Little::little_four))]
pub fn put_word(file: &mut Vec<u8>, value: u32) -> Result<(), AllocError>
    ensures { OnOk result (file.new.items ≡ file.old.items ++ little 4 value) }
{
    file.extend_from_slice(&value.to_le_bytes())
}

#[tactic(auto, using(crate::proofs::Little::little_eight))]
fn put_xword(file: &mut Vec<u8>, value: u64) -> Result<(), AllocError>
    ensures { OnOk result (file.new.items ≡ file.old.items ++ little 8 value) }
{
    file.extend_from_slice(&value.to_le_bytes())
}

fn put_field(file: &mut Vec<u8>, field: Field) -> Result<(), AllocError>
    ensures { OnOk result (file.new.items ≡ file.old.items ++ little (sized field).0 (sized field).1) }
{
    match field {
        Field::Byte(value) => put_byte(file, value),
        Field::Half(value) => put_half(file, value),
        Field::Word(value) => put_word(file, value),
        Field::Xword(value) => put_xword(file, value),
    }
}

/// Appends numbers, one behind the other.
#[tactic(auto, unfolding(crate::specs::Fields::fields))]
pub fn put(file: &mut Vec<u8>, fields: &[Field]) -> Result<(), AllocError>
    ensures { OnOk result (file.new.items ≡ file.old.items ++ bytes_of (map sized fields.now)) }
{
    for field in fields {
        put_field(file, *field)?;
    }
    Ok(())
}

/// Appends zeros up to a place. A file that ends there or behind it stays.
pub fn fill(file: &mut Vec<u8>, place: u64) -> Result<(), AllocError>
    ensures { OnOk result (file.new.items ≡ file.old.items ++ replicate (place - length file.old.items) 0) }
{
    let end = file.len().max(place as usize);
    file.resize(end, 0)
}
