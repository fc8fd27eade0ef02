// SPDX-License-Identifier: Apache-2.0
//! The bytes of the data and the words of the text.
ghost use Rattle.std.specs.Prelude.{◌≡◌, ◌≤◌, ◌<◌, ◌^◌, ◌++◌, true, false, None, replicate, length, IfOk, OnOk, IsOkUnless};
ghost use Rattle.rv_table.specs.Instruction.{low_bits};
ghost use Rattle.asm_places.specs.Maps.{has_at};
ghost use Rattle.asm_places.specs.Places.{first_place};
ghost use Rattle.asm_places.specs.Ranges.{is_from, is_in_range, is_past, range_line};
ghost use Rattle.asm_places.specs.Targets.{distance_to, target_of as target_of_of};
ghost use Rattle.asm_places.specs.Laying.{laid};
ghost use Rattle.rv_asm.specs.declared.writing.Unwritten.TheVariants as unwritten;
ghost use Rattle.rv_asm.specs.Checking.{IsChecked};
ghost use Rattle.rv_asm.specs.Data.{low_bytes, address_or as address_or_of, data_bytes, text_words, data_of as data_of_of, text_of as text_of_of};
ghost use Rattle.rv_asm.specs.Fitting.{Fits, AllFit};

use crate::writing::{Unwritten, push_words};
use asm_places::{
    Place, Target, address, alignment, all_targets, distance, find, last_place, natural,
    next_place, padding, start, target_of,
};
use asm_text::{Item, Statement};
use std::alloc::{AllocError, Global};
use std::collections::BTreeMap;

fn bits(value: i128) -> u64
    requires { is_from (2 ^ 63) (2 ^ 64) value ≡ true }
    ensures { result ≡ low_bits 64 value }
{
    if value < 0 {
        (value + 0x1_0000_0000_0000_0000) as u64
    } else {
        value as u64
    }
}

fn push_low(bytes: &mut Vec<u8>, width: u8, number: u64) -> Result<(), AllocError>
    ensures { OnOk result (bytes.new.items ≡ bytes.old.items ++ low_bytes width number) }
{
    let width = usize::from(width.min(8));
    bytes.extend_from_slice(&number.to_le_bytes()[..width])
}

#[tactic(auto, using(std::proofs::lemmas::List::replicate_more))]
fn push_zeros(bytes: &mut Vec<u8>, count: u64) -> Result<(), AllocError>
    ensures { OnOk result (bytes.new.items ≡ bytes.old.items ++ replicate count 0) }
{
    for _ in 0..count {
        bytes.push(0)?;
    }
    Ok(())
}

fn address_or_0(size: u64, target: Option<Target>) -> u64
    requires { size ≤ 67108864 }
    ensures { result ≡ address_or_of size target }
{
    match target {
        Some(target) => address(size, target),
        None => 0,
    }
}

#[tactic(auto, using(crate::proofs::Narrow::value_wide), unfolding(crate::specs::Data::data_bytes, asm_places::specs::Ranges::is_in_range))]
fn push_data<'a>(
    bytes: &mut Vec<u8>,
    targets: &BTreeMap<(usize, &'a [u8]), Target>,
    size: u64,
    place: Place,
    statement: &'a Statement,
) -> Result<(), AllocError>
    requires size { size ≤ 67108864 }
    requires range { is_in_range statement.now ≡ true }
    ensures { OnOk result (bytes.new.items ≡ bytes.old.items ++ data_bytes (has_at targets.now) size place statement.now) }
{
    match statement {
        Statement::Value { width, value } => push_low(bytes, *width, bits(*value)),
        Statement::Reference { width, name } => {
            let target = find(targets, 0, name.as_slice());
            push_low(bytes, *width, address_or_0(size, target))
        }
        Statement::Zero { count } => push_zeros(bytes, natural(*count)),
        Statement::Ascii { bytes: text } => bytes.extend_from_slice(text.as_slice()),
        Statement::Align { to } => push_zeros(bytes, padding(place.data, alignment(*to))),
        _ => Ok(()),
    }
}

#[tactic(auto, using(asm_places::proofs::Placing::is_fine, asm_places::proofs::Placing::not_past))]
fn data_with<'a>(
    alloc: Global,
    targets: &BTreeMap<(usize, &'a [u8]), Target>,
    size: u64,
    items: &'a [Item],
) -> Result<Vec<u8>, AllocError>
    requires size { size ≤ 67108864 }
    requires few { length items.now < 2 ^ 63 }
    requires range { range_line first_place items.now ≡ None }
    ensures { IfOk result (λ v. v.items ≡ laid (data_bytes (has_at targets.now) size) first_place items.now) }
{
    let mut bytes = Vec::new(alloc);
    let mut place = start();
    for item in items {
        push_data(&mut bytes, targets, size, place, &item.statement)?;
        place = next_place(place, &item.statement);
    }
    Ok(bytes)
}

fn named_distance<'a>(
    targets: &BTreeMap<(usize, &'a [u8]), Target>,
    size: u64,
    place: Place,
    statement: &'a Statement,
) -> i64
    requires size { size ≤ 67108864 }
    requires short { is_past place ≡ false }
    ensures { result ≡ distance_to size place (target_of_of (has_at targets.now) place.functions statement.now) }
{
    let target = target_of(targets, place.functions, statement);
    distance(size, place, target)
}

#[tactic(auto, using(crate::proofs::Appending::only_memory, crate::proofs::Appending::is_signed), unfolding(crate::specs::Data::text_words))]
fn push_text<'a>(
    words: &mut Vec<u32>,
    targets: &BTreeMap<(usize, &'a [u8]), Target>,
    size: u64,
    place: Place,
    statement: &'a Statement,
) -> Result<(), Unwritten>
    requires size { size ≤ 67108864 }
    requires short { is_past place ≡ false }
    requires range { is_in_range statement.now ≡ true }
    requires fits { Fits (distance_to size place (target_of_of (has_at targets.now) place.functions statement.now)) statement.now }
    ensures words { OnOk result (words.new.items ≡ words.old.items ++ text_words (has_at targets.now) size place statement.now) }
    ensures memory { IsOkUnless result unwritten.NoMemory }
{
    let distance = named_distance(targets, size, place, statement);
    push_words(words, statement, distance)
}

#[tactic(auto, using(asm_places::proofs::Placing::is_fine, asm_places::proofs::Placing::not_past, crate::proofs::Reaching::fits_here))]
fn text_with<'a>(
    alloc: Global,
    targets: &BTreeMap<(usize, &'a [u8]), Target>,
    size: u64,
    items: &'a [Item],
) -> Result<Vec<u32>, Unwritten>
    requires size { size ≤ 67108864 }
    requires few { length items.now < 2 ^ 63 }
    requires range { range_line first_place items.now ≡ None }
    requires fit { AllFit (has_at targets.now) size first_place items.now }
    ensures words { IfOk result (λ v. v.items ≡ laid (text_words (has_at targets.now) size) first_place items.now) }
    ensures memory { IsOkUnless result unwritten.NoMemory }
{
    let mut words = Vec::new(alloc);
    let mut place = start();
    for item in items {
        push_text(&mut words, targets, size, place, &item.statement)?;
        place = next_place(place, &item.statement);
    }
    Ok(words)
}

/// The bytes of the data, where each statement is in range.
#[tactic(auto, using(crate::proofs::Laying::data_same))]
pub fn data_of(alloc: Global, items: &[Item]) -> Result<Vec<u8>, AllocError>
    requires few { length items.now < 2 ^ 63 }
    requires range { range_line first_place items.now ≡ None }
    ensures { IfOk result (λ v. v.items ≡ data_of_of items.now) }
{
    let targets = all_targets(alloc, items)?;
    data_with(alloc, &targets, last_place(items).text, items)
}

/// The words of the text of a source that has no fault. Of errors there is NoMemory alone.
#[tactic(auto, using(crate::proofs::Laying::text_same))]
pub fn text_of(alloc: Global, items: &[Item]) -> Result<Vec<u32>, Unwritten>
    requires few { length items.now < 2 ^ 63 }
    requires checked { IsChecked items.now }
    ensures words { IfOk result (λ v. v.items ≡ text_of_of items.now) }
    ensures memory { IsOkUnless result unwritten.NoMemory }
{
    let targets = all_targets(alloc, items)?;
    text_with(alloc, &targets, last_place(items).text, items)
}
