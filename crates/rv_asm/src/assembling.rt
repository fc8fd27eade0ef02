// SPDX-License-Identifier: Apache-2.0
//! Sources become objects.
ghost use Rattle.std.specs.Prelude.{◌≡◌, ◌≤◌, ◌<◌, ◌+◌, ◌^◌, ◌++◌, ◌∷◌, [], take, drop, None, map, length, IfOk, OnOk};
ghost use Rattle.asm_places.specs.Places.{first_place};
ghost use Rattle.asm_places.specs.Ranges.{range_line};
ghost use Rattle.asm_places.specs.Functions.{functions_of as functions_of_of};
ghost use Rattle.asm_places.specs.Symbols.{symbol_of, null_symbol, named_symbols as named_symbols_of, outer_symbols};
ghost use Rattle.rv_asm.specs.Checking.{IsChecked};
ghost use Rattle.rv_asm.specs.Data.{text_of as text_of_of};
ghost use Rattle.rv_asm.specs.Object.{words_in as words_in_of, function_number as function_number_of, entry_number as entry_number_of, object_from as object_from_of, object_of, Assembles};
ghost use Rattle.rv_asm.specs.Passes.{entry_of, fault_of};

use crate::checking::{checked, entry_name};
use crate::data::{data_of, text_of};
use crate::marks::{marks_of, narrow};
use asm_places::{
    Scoped, functions_of, last_place, push_data_labels, push_functions, push_inner_symbols,
};
use asm_text::{AsmFault, Item};
use sh_types::{Bytes, Function, Items, NoMemory, Object, Symbol, SymbolName};
use std::alloc::{AllocError, Global};

#[tactic(auto, using(std::proofs::lemmas::List::drop_all))]
fn behind(words: &[u32], count: usize) -> &[u32]
    ensures { result.now ≡ drop count words.now }
{
    if count >= words.len() {
        return &[];
    }
    &words[count..]
}

#[tactic(auto, using(std::proofs::lemmas::List::take_all))]
fn first_words(words: &[u32], count: usize) -> &[u32]
    ensures { result.now ≡ take count words.now }
{
    if count >= words.len() {
        return words;
    }
    &words[..count]
}

fn words_in(alloc: Global, text: &[u32], function: &Function) -> Result<Items<u32>, AllocError>
    ensures { IfOk result (λ w. w ≡ words_in_of text.now function.now) }
{
    let start = (function.home.saturating_sub(0x10000) / 4) as usize;
    let count = (function.size / 4) as usize;
    let mut words = Vec::new(alloc);
    words.extend_from_slice(first_words(behind(text, start), count))?;
    Ok(Items::from_vec(words))
}

fn push_words_in(
    alloc: Global,
    words: &mut Vec<Items<u32>>,
    text: &[u32],
    function: &Function,
) -> Result<(), AllocError>
    ensures { OnOk result (words.new.items ≡ words.old.items ++ words_in_of text.now function.now ∷ []) }
{
    words.push(words_in(alloc, text, function)?)?;
    Ok(())
}

fn words_of_functions(
    alloc: Global,
    text: &[u32],
    functions: &[Function],
) -> Result<Vec<Items<u32>>, AllocError>
    ensures { IfOk result (λ v. v.items ≡ map (words_in_of text.now) functions.now) }
{
    let mut words = Vec::new(alloc);
    for function in functions {
        push_words_in(alloc, &mut words, text, function)?;
    }
    Ok(words)
}

#[tactic(auto, unfolding(crate::specs::Object::function_number))]
fn function_number(functions: &[Function], name: &[u8]) -> usize
    requires { length functions.now < 2 ^ 63 }
    ensures { result ≡ function_number_of name.now functions.now }
{
    let mut number = 0;
    for function in functions {
        if function.name.as_slice() == name {
            return number;
        }
        number += 1;
    }
    number
}

fn entry_number(functions: &[Function], items: &[Item]) -> usize
    requires { length functions.now < 2 ^ 63 }
    ensures { result ≡ entry_number_of (entry_of items.now) functions.now }
{
    match entry_name(items) {
        Some(name) => function_number(functions, name),
        None => 0,
    }
}

fn push_symbol(symbols: &mut Vec<Symbol>, scoped: &Scoped) -> Result<(), AllocError>
    ensures { OnOk result (symbols.new.items ≡ symbols.old.items ++ symbol_of scoped.now ∷ []) }
{
    let symbol = &scoped.symbol;
    symbols.push(Symbol {
        name: symbol.name.share()?,
        kind: symbol.kind,
        section: symbol.section,
        value: symbol.value,
        size: symbol.size,
    })?;
    Ok(())
}

fn push_symbols(symbols: &mut Vec<Symbol>, named: &[Scoped]) -> Result<(), AllocError>
    ensures { OnOk result (symbols.new.items ≡ symbols.old.items ++ map symbol_of named.now) }
{
    for scoped in named {
        push_symbol(symbols, scoped)?;
    }
    Ok(())
}

/// The null symbol, and behind it these.
fn with_null(alloc: Global, named: &[Scoped]) -> Result<Vec<Symbol>, AllocError>
    ensures { IfOk result (λ v. v.items ≡ null_symbol ∷ map symbol_of named.now) }
{
    let mut symbols = Vec::new(alloc);
    symbols.push(Symbol {
        name: SymbolName::from_slice(alloc, &[])?,
        kind: 0,
        section: 0,
        value: 0,
        size: 0,
    })?;
    push_symbols(&mut symbols, named)?;
    Ok(symbols)
}

fn outer(alloc: Global, functions: &[Function], items: &[Item]) -> Result<Vec<Scoped>, AllocError>
    requires functions { functions.now ≡ functions_of_of items.now }
    requires few { length items.now < 2 ^ 63 }
    requires range { range_line first_place items.now ≡ None }
    ensures { IfOk result (λ v. v.items ≡ outer_symbols items.now) }
{
    let mut symbols = Vec::new(alloc);
    push_functions(&mut symbols, functions)?;
    push_data_labels(&mut symbols, last_place(items).text, items)?;
    Ok(symbols)
}

/// The words of the text. There is no other error than want of memory.
fn text_words(alloc: Global, items: &[Item]) -> Result<Vec<u32>, NoMemory>
    requires few { length items.now < 2 ^ 63 }
    requires checked { IsChecked items.now }
    ensures { IfOk result (λ v. v.items ≡ text_of_of items.now) }
{
    match text_of(alloc, items) {
        Ok(words) => Ok(words),
        Err(_) => Err(NoMemory),
    }
}

/// The object of the statements of a source that has no fault.
#[tactic(auto, unfolding(crate::specs::Object::object_from))]
fn object_from(alloc: Global, items: &[Item]) -> Result<Object, NoMemory>
    requires few { length items.now < 2 ^ 63 }
    requires checked { IsChecked items.now }
    ensures { IfOk result (λ o. o ≡ object_from_of items.now) }
{
    let functions = functions_of(alloc, items)?;
    let text = text_words(alloc, items)?;
    let words = words_of_functions(alloc, text.as_slice(), functions.as_slice())?;
    let bytes = data_of(alloc, items)?;
    let mut named = outer(alloc, functions.as_slice(), items)?;
    let first = named.len() + 1;
    push_inner_symbols(alloc, &mut named, items)?;
    let marks = marks_of(alloc, named.as_slice(), first, items)?;
    let symbols = with_null(alloc, named.as_slice())?;
    Ok(Object {
        entry: narrow(entry_number(functions.as_slice(), items))?,
        functions: Items::from_vec(functions),
        words: Items::from_vec(words),
        bytes: Bytes::from_vec(bytes),
        symbols: Items::from_vec(symbols),
        marks: Items::from_vec(marks),
    })
}

/// The object of a source; else its first fault, or want of memory.
#[tactic(auto, using(crate::proofs::Answering::refused, crate::proofs::Answering::whole))]
pub fn assemble(alloc: Global, text: &[u8]) -> Result<Object, AsmFault>
    requires { length text.now ≤ 67108864 }
    ensures { Assembles result (fault_of text.now) (object_of text.now) }
{
    let items = checked(alloc, text)?;
    let object = object_from(alloc, items.as_slice())?;
    Ok(object)
}
