// SPDX-License-Identifier: Apache-2.0
//! The marks of what refers to what.
ghost use Rattle.std.specs.Prelude.{◌≡◌, ◌≤◌, ◌<◌, ◌+◌, ◌^◌, ◌++◌, ◌∷◌, [], true, false, None, length, IfOk, OnOk};
ghost use Rattle.asm_places.specs.Places.{first_place};
ghost use Rattle.asm_places.specs.Ranges.{is_past, range_line};
ghost use Rattle.asm_places.specs.Numbers.{number_of};
ghost use Rattle.asm_places.specs.Symbols.{counted, number_in};
ghost use Rattle.rv_asm.specs.Marks.{mark, number_or as number_or_of, label_or as label_or_of, reference_kind as reference_kind_of, marks_at, inner_in as inner_in_of};

use asm_places::{Place, Scoped, all_numbers, find_number, next_place, start};
use asm_text::{Item, Statement};
use sh_types::{Mark, NoMemory};
use std::alloc::Global;
use std::collections::BTreeMap;

const BRANCH: u32 = 16;

const JAL: u32 = 17;

const CALL_PLT: u32 = 19;

const PCREL_HI20: u32 = 23;

const PCREL_LO12_I: u32 = 24;

fn number_or(number: Option<usize>) -> usize
    ensures { result ≡ number_or_of number }
{
    match number {
        Some(number) => number,
        None => 0,
    }
}

fn label_or(label: Option<usize>, other: Option<usize>) -> usize
    ensures { result ≡ label_or_of label other }
{
    match label {
        Some(number) => number,
        None => number_or(other),
    }
}

fn reference_kind(width: u8) -> u32
    ensures { result ≡ reference_kind_of width }
{
    if width == 4 { 1 } else { 2 }
}

/// A number in 32 bits. More symbols than these can count would fit no memory.
pub fn narrow(number: usize) -> Result<u32, NoMemory>
    ensures { IfOk result (λ n. n ≡ number) }
{
    if number > 0xffff_ffff {
        return Err(NoMemory);
    }
    Ok(number as u32)
}

fn push_mark(
    marks: &mut Vec<Mark>,
    in_text: bool,
    at: u64,
    kind: u32,
    number: usize,
) -> Result<(), NoMemory>
    ensures { OnOk result (marks.new.items ≡ marks.old.items ++ mark in_text at kind number ∷ []) }
{
    let symbol = narrow(number)?;
    marks.push(Mark {
        in_text,
        at,
        kind,
        symbol,
    })?;
    Ok(())
}

fn push_address(marks: &mut Vec<Mark>, at: u64, number: usize, label: usize) -> Result<(), NoMemory>
    requires { at ≤ 67108864 }
    ensures { OnOk result (marks.new.items ≡ marks.old.items ++ mark true at 23 number ∷ mark true (at + 4) 24 label ∷ []) }
{
    push_mark(marks, true, at, PCREL_HI20, number)?;
    push_mark(marks, true, at + 4, PCREL_LO12_I, label)
}

fn named<'a>(numbers: &BTreeMap<(usize, &'a [u8]), usize>, scope: usize, name: &'a [u8]) -> usize
    ensures { result ≡ number_or_of (number_of numbers.now scope name.now) }
{
    number_or(find_number(numbers, scope, name))
}

#[tactic(auto, unfolding(crate::specs::Marks::marks_at))]
fn push_marks<'a>(
    marks: &mut Vec<Mark>,
    numbers: &BTreeMap<(usize, &'a [u8]), usize>,
    first: usize,
    inner: usize,
    place: Place,
    statement: &'a Statement,
) -> Result<(), NoMemory>
    requires few { first + inner < 2 ^ 64 }
    requires short { is_past place ≡ false }
    ensures { OnOk result (marks.new.items ≡ marks.old.items ++ marks_at (number_of numbers.now) first inner place statement.now) }
{
    let at = place.text;
    match statement {
        Statement::Branch { label, .. } => {
            let number = named(numbers, place.functions, label.as_slice());
            push_mark(marks, true, at, BRANCH, number)
        }
        Statement::Jump { target, .. } => {
            let label = find_number(numbers, place.functions, target.as_slice());
            let number = label_or(label, find_number(numbers, 0, target.as_slice()));
            push_mark(marks, true, at, JAL, number)
        }
        Statement::Call { name } | Statement::Tail { name } => {
            let number = named(numbers, 0, name.as_slice());
            push_mark(marks, true, at, CALL_PLT, number)
        }
        Statement::Address { name, .. } => {
            let number = named(numbers, 0, name.as_slice());
            push_address(marks, at, number, first + inner)
        }
        Statement::Reference { width, name } => {
            let number = named(numbers, 0, name.as_slice());
            push_mark(marks, false, place.data, reference_kind(*width), number)
        }
        _ => Ok(()),
    }
}

#[tactic(auto, unfolding(crate::specs::Marks::inner_in))]
fn inner_in(place: Place, statement: &Statement) -> usize
    ensures value { result ≡ inner_in_of place statement.now }
    ensures small { result ≤ 1 }
{
    match statement {
        Statement::Label { .. } => usize::from(place.inside),
        Statement::Address { .. } => 1,
        _ => 0,
    }
}

#[tactic(auto, using(asm_places::proofs::Placing::is_fine, asm_places::proofs::Placing::not_past))]
fn marks_with<'a>(
    alloc: Global,
    numbers: &BTreeMap<(usize, &'a [u8]), usize>,
    first: usize,
    items: &'a [Item],
) -> Result<Vec<Mark>, NoMemory>
    requires first { first ≤ 2 ^ 63 }
    requires few { length items.now < 2 ^ 63 }
    requires range { range_line first_place items.now ≡ None }
    ensures { IfOk result (λ v. v.items ≡ counted (marks_at (number_of numbers.now) first) inner_in_of 0 first_place items.now) }
{
    let mut marks = Vec::new(alloc);
    let mut place = start();
    let mut inner = 0;
    for item in items {
        push_marks(&mut marks, numbers, first, inner, place, &item.statement)?;
        inner += inner_in(place, &item.statement);
        place = next_place(place, &item.statement);
    }
    Ok(marks)
}

/// The marks of a source, by its symbols behind the null symbol, and by the number of the first label of a function or
/// `.La` label.
#[tactic(auto, using(crate::proofs::Marking::marks_same))]
pub fn marks_of<'a>(
    alloc: Global,
    symbols: &'a [Scoped],
    first: usize,
    items: &'a [Item],
) -> Result<Vec<Mark>, NoMemory>
    requires first { first ≤ 2 ^ 63 }
    requires symbols { length symbols.now < 2 ^ 63 }
    requires few { length items.now < 2 ^ 63 }
    requires range { range_line first_place items.now ≡ None }
    ensures { IfOk result (λ v. v.items ≡ counted (marks_at (number_in symbols.now) first) inner_in_of 0 first_place items.now) }
{
    let numbers = all_numbers(alloc, symbols)?;
    marks_with(alloc, &numbers, first, items)
}
