// SPDX-License-Identifier: Apache-2.0
//! The first relocation record that refuses each function.
ghost use Rattle.std.specs.Prelude.{◌≡◌, ◌-◌, ◌<◌, ◌≤◌, ◌^◌, suc, Some, IfOk, IsTrue, length};
ghost use Rattle.sh_machines.specs.Class as class;
ghost use Rattle.fn_lookup.specs.Apart.{AreApart};
ghost use Rattle.fn_lookup.specs.Candidate.{IsCount, IsLast};
ghost use Rattle.image_rules.specs.Binding as binding;
ghost use Rattle.image_rules.specs.Refusals as refusals;
ghost use Rattle.guest_image.specs.Records.{AreFirst, AreNoted, IsByRecord, by_record, only_at};

use elf_rules::kinds::{
    R_RISCV_32, R_RISCV_64, R_RISCV_HI20, R_RISCV_LO12_I, R_RISCV_LO12_S, R_RISCV_PCREL_HI20,
};
use fn_lookup::named_by;
use sh_types::{Function, Reloc, Rule};
use std::alloc::{AllocError, Global};

/// Where a function is refused, in bytes from its start, and by which rule.
pub type Refusal = (u32, Rule);

#[tactic(auto, unfolding(image_rules::specs::Binding::is_data_pointer))]
fn is_data_pointer(reloc: &Reloc) -> bool
    ensures { result ≡ binding.is_data_pointer reloc.now }
{
    !reloc.code && (reloc.kind == R_RISCV_32 || reloc.kind == R_RISCV_64)
}

fn takes_address(kind: u32) -> bool
    ensures { result ≡ class.takes_address kind }
{
    kind == R_RISCV_PCREL_HI20
        || kind == R_RISCV_HI20
        || kind == R_RISCV_LO12_I
        || kind == R_RISCV_LO12_S
}

/// Whether a record takes the address that it names as data.
#[tactic(auto, unfolding(image_rules::specs::Binding::is_pointer))]
fn is_pointer(reloc: &Reloc) -> bool
    ensures { result ≡ binding.is_pointer reloc.now }
{
    is_data_pointer(reloc) || (reloc.code && takes_address(reloc.kind))
}

/// How many of the functions start at or before an address.
fn count_from(functions: &[Function], address: u128) -> usize
    requires { AreApart functions.now }
    ensures { IsCount functions.now address result }
{
    functions.partition_point(|function| u128::from(function.home) <= address)
}

/// The last function that starts at or before an address.
fn last_from(functions: &[Function], address: u128) -> Option<usize>
    requires { AreApart functions.now }
    ensures { IsLast functions.now address result }
{
    let count = count_from(functions, address);
    if count == 0 { None } else { Some(count - 1) }
}

/// Whether an address lies in a function that starts at or before it, past its start, and is that of no whole word.
fn splits_word(function: &Function, address: u128) -> bool
    requires { function.now.home ≤ address }
    ensures splits { result ≡ refusals.splits_word function.now (Some address) }
    ensures small { IsTrue result → address - function.now.home < 2 ^ 32 }
{
    let size = u128::from(function.size);
    let off = address - u128::from(function.home);
    off < size && off % 4 != 0
}

fn is_at_start(function: &Function, address: u128) -> bool
    ensures { result ≡ class.is_number (Some address) function.now.home }
{
    address == u128::from(function.home)
}

/// Where a record refuses a function that starts at or before the address that it names, and by which rule.
fn refusal_in(function: &Function, is_entry: bool, reloc: &Reloc, address: u128) -> Option<Refusal>
    requires named { class.named_by reloc.now ≡ Some address }
    requires from { function.now.home ≤ address }
    ensures { result ≡ refusals.refusal_by is_entry function.now reloc.now }
{
    if is_data_pointer(reloc) && splits_word(function, address) {
        return Some((
            (address - u128::from(function.home)) as u32,
            Rule::PointerInside,
        ));
    }
    if is_entry && is_pointer(reloc) && is_at_start(function, address) {
        return Some((0, Rule::EntryUsed));
    }
    None
}

/// The same of the function with a number, the last that starts at or before the address.
fn refused_at(
    functions: &[Function],
    entry: u32,
    reloc: &Reloc,
    address: u128,
    number: usize,
) -> Option<(usize, Refusal)>
    requires apart { AreApart functions.now }
    requires named { class.named_by reloc.now ≡ Some address }
    requires last { IsCount functions.now address (suc number) }
    ensures { IsByRecord functions.now entry reloc.now result }
{
    match refusal_in(&functions[number], number == entry as usize, reloc, address) {
        None => None,
        Some(refusal) => Some((number, refusal)),
    }
}

/// The one function that a record refuses, if it refuses any, with the offset and the rule.
fn refused_by(functions: &[Function], entry: u32, reloc: &Reloc) -> Option<(usize, Refusal)>
    requires { AreApart functions.now }
    ensures { IsByRecord functions.now entry reloc.now result }
{
    let Some(address) = named_by(reloc) else {
        return None;
    };
    match last_from(functions, address) {
        None => None,
        Some(number) => refused_at(functions, entry, reloc, address, number),
    }
}

/// Notes the refusal of a function that has none.
fn note_at(found: &mut [Option<Refusal>], number: usize, refusal: Refusal)
    requires { number < length found.old }
    ensures { AreNoted (only_at number refusal) found.old found.new }
{
    if found[number].is_none() {
        found[number] = Some(refusal);
    }
}

/// Notes the refusal by a record, where its function has none.
fn note(found: &mut [Option<Refusal>], functions: &[Function], entry: u32, reloc: &Reloc)
    requires apart { AreApart functions.now }
    requires long { length found.old ≡ length functions.now }
    ensures { AreNoted (by_record functions.now entry reloc.now) found.old found.new }
{
    if let Some((number, refusal)) = refused_by(functions, entry, reloc) {
        note_at(found, number, refusal);
    }
}

/// For each function the first record, in file order, that refuses it: where, and by which rule. A record refuses at most
/// the one function with the address that it names, which a binary search finds; `entry` is the number of the entry
/// function.
pub fn record_refusals(
    alloc: Global,
    functions: &[Function],
    entry: u32,
    relocs: &[Reloc],
) -> Result<Vec<Option<Refusal>>, AllocError>
    requires { AreApart functions.now }
    ensures { IfOk result (λ found. AreFirst functions.now entry relocs.now found.items) }
{
    let mut found = vec![in alloc; None; functions.len()]?;
    for reloc in relocs {
        note(found.as_mut_slice(), functions, entry, reloc);
    }
    Ok(found)
}
