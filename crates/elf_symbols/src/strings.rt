// SPDX-License-Identifier: Apache-2.0
//! String tables: where their last name ends, and their names.
ghost use Rattle.std.specs.Prelude.{◌≡◌, ℕ, ◌+◌, ◌<◌, ◌≤◌, ◌^◌, ◌==◌, length, slice_index_or, IfOk, if◌then◌else◌};
ghost use Rattle.std.specs.List.Sorted.{IsNonDecreasingBy};
ghost use Rattle.elf_rules.specs.Elf as elf;
ghost use Rattle.elf_symbols.specs.Zeros.{zero_end, zeros_from, first_from};

use sh_types::{StringTable, SymbolName};
use std::alloc::{AllocError, Global};
use std::marker::Model;

fn end_with(end: usize, place: usize, byte: u8) -> usize
    requires { place < usize.MAX }
    ensures { result ≡ (if byte == 0 then place + 1 else end) }
{
    if byte == 0 { place + 1 } else { end }
}

/// One past the last zero byte, or 0 where there is none. The names that begin before it are those that end.
#[tactic(auto, using(crate::proofs::Ending::zero_end_more))]
pub fn last_end(names: &[u8]) -> usize
    ensures { result ≡ zero_end names.now }
{
    let mut end = 0;
    for place in 0..names.len() {
        end = end_with(end, place, names[place]);
    }
    end
}

/// The places of the zero bytes, rising.
fn zero_places(alloc: Global, names: &[u8]) -> Result<Vec<u32>, AllocError>
    requires { length names.now < 2 ^ 32 }
    ensures { IfOk result (λ places. places.items ≡ zeros_from 0 names.now) }
{
    let count = names.iter().filter(|byte| **byte == 0).count();
    let mut places = Vec::with_capacity(alloc, count)?;
    for place in 0..names.len() {
        if names[place] == 0 {
            places.push(place as u32)?;
        }
    }
    Ok(places)
}

/// A string table whose names share its bytes. The places of its zero bytes are kept, so that the end of a name is
/// found without going over its bytes.
#[derive(Drop)]
pub struct Names {
    table: StringTable,
    size: usize,
    zeros: Vec<u32>,
}

impl Model for Names {
    ghost use Rattle.std.specs.Prelude.{◌≡◌, List, ℕ, length};
    ghost use Rattle.elf_symbols.specs.Zeros.{zeros_from};

    ghost Value = { List ℕ };

    ghost view = { λ n. n.table };

    ghost invariant = { λ n. (n.size ≡ length n.table) × (n.zeros.items ≡ zeros_from 0 n.table) };
}

impl Names {
    /// The string table with a copy of these bytes. Want of memory is answered also where there are 2^32 or more.
    pub fn new(alloc: Global, bytes: &[u8]) -> Result<Names, AllocError>
        ensures { IfOk result (λ names. names ≡ bytes.now) }
    {
        if bytes.len() > u32::MAX as usize {
            return Err(AllocError);
        }
        Ok(Names {
            table: StringTable::new(alloc, bytes)?,
            size: bytes.len(),
            zeros: zero_places(alloc, bytes)?,
        })
    }

    /// The name that begins at a place, up to its zero byte, or up to the end where there is none.
    pub fn name(&self, place: u32) -> Result<SymbolName, AllocError>
        ensures { IfOk result (λ name. name ≡ elf.name_at self.now place) }
    {
        let start = (place as usize).min(self.size);
        let end = first_zero(&self.zeros, self.size, start);
        self.table.name(start, end)
    }
}

/// How many of the places of zero bytes come before a place.
fn before(zeros: &[u32], place: usize) -> usize
    requires { IsNonDecreasingBy (λ (n : ℕ). n) zeros.now }
    ensures bound { result ≤ length zeros.now }
    ensures below { (k : ℕ) (d : ℕ) → k < result → slice_index_or zeros.now k d < place }
    ensures above { (k : ℕ) (d : ℕ) → result ≤ k → k < length zeros.now → place ≤ slice_index_or zeros.now k d }
{
    zeros.partition_point(|zero| (*zero as usize) < place)
}

/// The first of the places of zero bytes that is a place or lies behind it, else the table's size.
fn first_zero(zeros: &[u32], size: usize, place: usize) -> usize
    requires { IsNonDecreasingBy (λ (n : ℕ). n) zeros.now }
    ensures { result ≡ first_from zeros.now place size }
{
    match zeros.get(before(zeros, place)) {
        Some(zero) => *zero as usize,
        None => size,
    }
}
