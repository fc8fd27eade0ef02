// SPDX-License-Identifier: Apache-2.0
//! The symbols of a source, and their numbers.
ghost use Rattle.std.specs.Prelude.{◌≡◌, ◌≤◌, ◌<◌, ◌+◌, ◌^◌, ◌++◌, ◌∷◌, [], ℕ, List, false, Some, None, map, length, if◌then◌else◌, IfOk, OnOk};
ghost use Rattle.asm_words.specs.Tables.{first_of};
ghost use Rattle.asm_places.specs.Names.{same_key};
ghost use Rattle.asm_places.specs.Places.{first_place};
ghost use Rattle.asm_places.specs.Ranges.{is_past, range_line};
ghost use Rattle.asm_places.specs.Laying.{laid};
ghost use Rattle.asm_places.specs.Numbers.{number_of};
ghost use Rattle.asm_places.specs.Symbols.{counted, symbol, scoped, function_symbol, data_label, inner_symbol, las_in as las_in_of, la_name as la_name_of, number_if, number_at};

use crate::distances::data_start;
use crate::places::Place;
use crate::targets::{next_place, start};
use asm_text::{Item, Statement};
use sh_types::{Function, Symbol, SymbolName};
use std::alloc::{AllocError, Global};
use std::collections::BTreeMap;

/// Where the text lies in memory.
const TEXT: u64 = 0x10000;

/// A symbol, and the scope in which statements name it: 0 for functions and the labels of the data, the number of the
/// function for its labels, from 1 on, and none for `.La` labels.
#[derive(Debug, Drop)]
pub struct Scoped {
    pub scope: Option<usize>,
    pub symbol: Symbol,
}

fn push_function(symbols: &mut Vec<Scoped>, function: &Function) -> Result<(), AllocError>
    ensures { OnOk result (symbols.new.items ≡ symbols.old.items ++ function_symbol function.now ∷ []) }
{
    symbols.push(Scoped {
        scope: Some(0),
        symbol: Symbol {
            name: function.name.share()?,
            kind: 2,
            section: 1,
            value: function.home,
            size: u64::from(function.size),
        },
    })?;
    Ok(())
}

/// Adds the symbols of functions.
pub fn push_functions(symbols: &mut Vec<Scoped>, functions: &[Function]) -> Result<(), AllocError>
    ensures { OnOk result (symbols.new.items ≡ symbols.old.items ++ map function_symbol functions.now) }
{
    for function in functions {
        push_function(symbols, function)?;
    }
    Ok(())
}

#[tactic(auto, unfolding(crate::specs::Symbols::data_label))]
fn push_data_label(
    symbols: &mut Vec<Scoped>,
    size: u64,
    place: Place,
    statement: &Statement,
) -> Result<(), AllocError>
    requires size { size ≤ 67108864 }
    requires short { is_past place ≡ false }
    ensures { OnOk result (symbols.new.items ≡ symbols.old.items ++ data_label size place statement.now) }
{
    match statement {
        Statement::Label { name } => {
            if place.inside {
                return Ok(());
            }
            symbols.push(Scoped {
                scope: Some(0),
                symbol: Symbol {
                    name: name.share()?,
                    kind: 1,
                    section: 2,
                    value: data_start(size) + place.data,
                    size: 0,
                },
            })?;
            Ok(())
        }
        _ => Ok(()),
    }
}

/// Adds the labels of the data, which lies behind a text of this size.
#[tactic(auto, using(crate::proofs::Placing::is_fine, crate::proofs::Placing::not_past))]
pub fn push_data_labels(
    symbols: &mut Vec<Scoped>,
    size: u64,
    items: &[Item],
) -> Result<(), AllocError>
    requires size { size ≤ 67108864 }
    requires few { length items.now < 2 ^ 63 }
    requires range { range_line first_place items.now ≡ None }
    ensures { OnOk result (symbols.new.items ≡ symbols.old.items ++ laid (data_label size) first_place items.now) }
{
    let mut place = start();
    for item in items {
        push_data_label(symbols, size, place, &item.statement)?;
        place = next_place(place, &item.statement);
    }
    Ok(())
}

fn la_name(alloc: Global, number: usize) -> Result<SymbolName, AllocError>
    ensures { IfOk result (λ n. n ≡ la_name_of number) }
{
    let text = format!(in alloc; ".La{number}")?;
    SymbolName::from_slice(alloc, text.as_bytes())
}

fn push_inner(
    symbols: &mut Vec<Scoped>,
    scope: Option<usize>,
    name: SymbolName,
    at: u64,
) -> Result<(), AllocError>
    requires { at ≤ 67108864 }
    ensures { OnOk result (symbols.new.items ≡ symbols.old.items ++ scoped scope (symbol name 0 1 (0x10000 + at) 0) ∷ []) }
{
    symbols.push(Scoped {
        scope,
        symbol: Symbol {
            name,
            kind: 0,
            section: 1,
            value: TEXT + at,
            size: 0,
        },
    })?;
    Ok(())
}

#[tactic(auto, unfolding(crate::specs::Symbols::inner_symbol))]
fn push_inner_symbol(
    alloc: Global,
    symbols: &mut Vec<Scoped>,
    las: usize,
    place: Place,
    statement: &Statement,
) -> Result<(), AllocError>
    requires short { is_past place ≡ false }
    ensures { OnOk result (symbols.new.items ≡ symbols.old.items ++ inner_symbol las place statement.now) }
{
    match statement {
        Statement::Label { name } => {
            if !place.inside {
                return Ok(());
            }
            push_inner(symbols, Some(place.functions), name.share()?, place.text)
        }
        Statement::Address { .. } => push_inner(symbols, None, la_name(alloc, las)?, place.text),
        _ => Ok(()),
    }
}

#[tactic(auto, unfolding(crate::specs::Symbols::las_in))]
fn las_in(place: Place, statement: &Statement) -> usize
    ensures value { result ≡ las_in_of place statement.now }
    ensures small { result ≤ 1 }
{
    match statement {
        Statement::Address { .. } => 1,
        _ => 0,
    }
}

/// Adds the labels of functions and the `.La` labels.
#[tactic(auto, using(crate::proofs::Placing::is_fine, crate::proofs::Placing::not_past))]
pub fn push_inner_symbols(
    alloc: Global,
    symbols: &mut Vec<Scoped>,
    items: &[Item],
) -> Result<(), AllocError>
    requires few { length items.now < 2 ^ 63 }
    requires range { range_line first_place items.now ≡ None }
    ensures { OnOk result (symbols.new.items ≡ symbols.old.items ++ counted inner_symbol las_in_of 0 first_place items.now) }
{
    let mut place = start();
    let mut las = 0;
    for item in items {
        push_inner_symbol(alloc, symbols, las, place, &item.statement)?;
        las += las_in(place, &item.statement);
        place = next_place(place, &item.statement);
    }
    Ok(())
}

fn define<'a>(
    numbers: &mut BTreeMap<(usize, &'a [u8]), usize>,
    scope: usize,
    name: &'a [u8],
    number: usize,
) -> Result<(), AllocError>
    ensures { OnOk result ((s : ℕ) (q : List ℕ) → number_of numbers.new s q ≡ first_of (if same_key (scope, name.now) (s, q) then Some number else None) (number_of numbers.old s q)) }
{
    numbers.insert((scope, name), number)?;
    Ok(())
}

fn take_number<'a>(
    numbers: &mut BTreeMap<(usize, &'a [u8]), usize>,
    number: usize,
    symbol: &'a Scoped,
) -> Result<(), AllocError>
    ensures { OnOk result ((s : ℕ) (q : List ℕ) → number_of numbers.new s q ≡ first_of (number_if number symbol.now (s, q)) (number_of numbers.old s q)) }
{
    match symbol.scope {
        Some(scope) => define(numbers, scope, symbol.symbol.name.as_slice(), number),
        None => Ok(()),
    }
}

/// The numbers of the symbols' names, behind the null symbol.
pub fn all_numbers(
    alloc: Global,
    symbols: &[Scoped],
) -> Result<BTreeMap<(usize, &[u8]), usize>, AllocError>
    requires { length symbols.now < 2 ^ 63 }
    ensures { IfOk result (λ numbers. (s : ℕ) (q : List ℕ) → number_of numbers s q ≡ number_at 1 symbols.now (s, q)) }
{
    let mut numbers = BTreeMap::new(alloc);
    let mut number = 1;
    for symbol in symbols {
        take_number(&mut numbers, number, symbol)?;
        number += 1;
    }
    Ok(numbers)
}

/// The number of a name in its scope.
pub fn find_number<'a>(
    numbers: &BTreeMap<(usize, &'a [u8]), usize>,
    scope: usize,
    name: &'a [u8],
) -> Option<usize>
    ensures { result ≡ number_of numbers.now scope name.now }
{
    numbers.get(&(scope, name)).copied()
}
