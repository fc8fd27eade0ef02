// SPDX-License-Identifier: Apache-2.0
//! How far it is from statements to what they name.
ghost use Rattle.std.specs.Prelude.{◌≡◌, ◌≤◌, ◌<◌, ◌^◌, true, false, None, length, IfOk};
ghost use Rattle.asm_places.specs.Places.{first_place};
ghost use Rattle.asm_places.specs.Ranges.{is_past, range_line};
ghost use Rattle.asm_places.specs.Maps.{has_at};
ghost use Rattle.asm_places.specs.Targets.{target_of as target_of_of, label_or_function as label_or_function_of, data_start as data_start_of, address_of, distance_to, is_reached as is_reached_of, far_line as far_line_of, first_far as first_far_of};

use crate::places::Place;
use crate::ranges::is_from;
use crate::targets::{Target, all_targets, last_place, next_place, start};
use asm_text::{Item, Statement};
use sh_types::NoMemory;
use std::alloc::Global;
use std::collections::BTreeMap;

/// What a name of a scope stands for.
pub fn find<'a>(
    targets: &BTreeMap<(usize, &'a [u8]), Target>,
    scope: usize,
    name: &'a [u8],
) -> Option<Target>
    ensures { result ≡ has_at targets.now scope name.now }
{
    targets.get(&(scope, name)).copied()
}

fn label_or_function(label: Option<Target>, other: Option<Target>) -> Option<Target>
    ensures { result ≡ label_or_function_of label other }
{
    if let Some(label) = label {
        return Some(label);
    }
    let other = other?;
    if other.function { Some(other) } else { None }
}

/// What a statement in the function of this number names.
#[tactic(auto, unfolding(crate::specs::Targets::target_of))]
pub fn target_of<'a>(
    targets: &BTreeMap<(usize, &'a [u8]), Target>,
    number: usize,
    statement: &'a Statement,
) -> Option<Target>
    ensures { result ≡ target_of_of (has_at targets.now) number statement.now }
{
    match statement {
        Statement::Branch { label, .. } => find(targets, number, label.as_slice()),
        Statement::Jump { target, .. } => label_or_function(
            find(targets, number, target.as_slice()),
            find(targets, 0, target.as_slice()),
        ),
        Statement::Reference { name, .. } => find(targets, 0, name.as_slice()),
        Statement::Address { name, .. } => find(targets, 0, name.as_slice()),
        Statement::Call { name } => find(targets, 0, name.as_slice()),
        Statement::Tail { name } => find(targets, 0, name.as_slice()),
        _ => None,
    }
}

/// The address of the data behind a text of this size.
pub fn data_start(size: u64) -> u64
    requires { size ≤ 67108864 }
    ensures value { result ≡ data_start_of size }
    ensures small { result < 2 ^ 27 }
{
    0x10000 + (size + 4095) / 4096 * 4096
}

/// The address of what a name stands for, where the text has this size.
pub fn address(size: u64, target: Target) -> u64
    requires { size ≤ 67108864 }
    ensures value { result ≡ address_of size target }
    ensures small { result < 2 ^ 33 }
{
    if target.code {
        0x10000 + u64::from(target.at)
    } else {
        data_start(size) + u64::from(target.at)
    }
}

/// How far it is from a place of the text to what is named there.
pub fn distance(size: u64, place: Place, target: Option<Target>) -> i64
    requires size { size ≤ 67108864 }
    requires short { is_past place ≡ false }
    ensures { result ≡ distance_to size place target }
{
    match target {
        Some(target) => address(size, target) as i64 - (0x10000 + place.text) as i64,
        None => 0,
    }
}

#[tactic(auto, unfolding(crate::specs::Targets::is_reached))]
fn is_reached(distance: i64, statement: &Statement) -> bool
    ensures { result ≡ is_reached_of distance statement.now }
{
    match statement {
        Statement::Branch { .. } => is_from(4096, 4096, i128::from(distance)),
        Statement::Jump { .. } => is_from(1 << 20, 1 << 20, i128::from(distance)),
        _ => true,
    }
}

fn reaches<'a>(
    targets: &BTreeMap<(usize, &'a [u8]), Target>,
    size: u64,
    place: Place,
    statement: &'a Statement,
) -> bool
    requires size { size ≤ 67108864 }
    requires short { is_past place ≡ false }
    ensures { result ≡ is_reached_of (distance_to size place (target_of_of (has_at targets.now) place.functions statement.now)) statement.now }
{
    let target = target_of(targets, place.functions, statement);
    let distance = distance(size, place, target);
    is_reached(distance, statement)
}

#[tactic(auto, using(crate::proofs::Placing::is_fine, crate::proofs::Placing::not_past))]
fn far_line<'a>(
    targets: &BTreeMap<(usize, &'a [u8]), Target>,
    size: u64,
    items: &'a [Item],
) -> Option<u32>
    requires size { size ≤ 67108864 }
    requires few { length items.now < 2 ^ 63 }
    requires range { range_line first_place items.now ≡ None }
    ensures { result ≡ far_line_of (has_at targets.now) size first_place items.now }
{
    let mut place = start();
    for item in items {
        if !reaches(targets, size, place, &item.statement) {
            return Some(item.line);
        }
        place = next_place(place, &item.statement);
    }
    None
}

/// The line of the first statement whose target is too far, where each statement is in range.
#[tactic(auto, using(crate::proofs::Targeting::far_same))]
pub fn first_far(alloc: Global, items: &[Item]) -> Result<Option<u32>, NoMemory>
    requires few { length items.now < 2 ^ 63 }
    requires range { range_line first_place items.now ≡ None }
    ensures { IfOk result (λ line. line ≡ first_far_of items.now) }
{
    let targets = all_targets(alloc, items)?;
    Ok(far_line(&targets, last_place(items).text, items))
}
