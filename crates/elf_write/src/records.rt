// SPDX-License-Identifier: Apache-2.0
//! Relocation records (System V gABI, "Relocation").
ghost use Rattle.std.specs.Prelude.{◌≡◌, ◌++◌, ◌+◌, ◌^◌, ◌<◌, filter, IfOk, OnOk};
ghost use Rattle.std.specs.List.{All};
ghost use Rattle.sh_types.specs.declared.objects.Mark.{Mark};
ghost use Rattle.elf_write.specs.Parts.{is_in, marks_in};
ghost use Rattle.elf_write.specs.Tables.{record_of, records};

use crate::fields::Field::Xword;
use crate::fields::put;
use sh_types::Mark;
use std::alloc::{AllocError, Global};

/// The value of r_addend.
const ADDEND: u64 = 0;

/// Appends the record of a mark in the part at an address.
#[tactic(auto, unfolding(crate::specs::Tables::record_of))]
fn put_record(file: &mut Vec<u8>, home: u64, mark: &Mark) -> Result<(), AllocError>
    requires { home + mark.now.at < 2 ^ 64 }
    ensures { OnOk result (file.new.items ≡ file.old.items ++ record_of home mark.now) }
{
    let info = u64::from(mark.symbol) << 32 | u64::from(mark.kind);
    put(file, &[Xword(home + mark.at), Xword(info), Xword(ADDEND)])
}

/// The marks that are in the code, or those in the data.
fn marks_of_part(alloc: Global, in_text: bool, marks: &[Mark]) -> Result<Vec<Mark>, AllocError>
    ensures { IfOk result (λ found. found.items ≡ filter (is_in in_text) marks.now) }
{
    let mut found = Vec::new(alloc);
    for mark in marks {
        if mark.in_text == in_text {
            found.push(*mark)?;
        }
    }
    Ok(found)
}

/// The marks that are in the code, or those in the data, by rising places.
pub fn marks_by_place(alloc: Global, in_text: bool, marks: &[Mark]) -> Result<Vec<Mark>, AllocError>
    ensures { IfOk result (λ found. found.items ≡ marks_in in_text marks.now) }
{
    let mut found = marks_of_part(alloc, in_text, marks)?;
    found.sort_by_key(|mark| mark.at)?;
    Ok(found)
}

/// Appends the records of marks in the part at an address.
#[tactic(auto, unfolding(crate::specs::Tables::records))]
pub fn put_records(file: &mut Vec<u8>, home: u64, marks: &[Mark]) -> Result<(), AllocError>
    requires { All (λ (m : Mark). home + m.at < 2 ^ 64) marks.now }
    ensures { OnOk result (file.new.items ≡ file.old.items ++ records home marks.now) }
{
    for mark in marks {
        put_record(file, home, mark)?;
    }
    Ok(())
}
