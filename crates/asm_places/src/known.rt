// SPDX-License-Identifier: Apache-2.0
//! Names that are not defined.
ghost use Rattle.std.specs.Prelude.{◌≡◌, ◌<◌, ◌^◌, ◌||◌, ℕ, List, false, length, IfOk, OnOk};
ghost use Rattle.asm_places.specs.Names.{is_taken, keys_in, function_key, functions_in, is_known as is_known_of, unknown_line as unknown_line_of, first_unknown as first_unknown_of};
ghost use Rattle.asm_places.specs.Sets.{has, is_key};

use crate::names::{define, take_name};
use crate::places::{begins, is_inside_after};
use asm_text::{Item, Statement};
use sh_types::NoMemory;
use std::alloc::{AllocError, Global};
use std::collections::BTreeSet;

#[tactic(auto, unfolding(crate::specs::Names::function_key))]
fn take_function<'a>(
    names: &mut BTreeSet<(usize, &'a [u8])>,
    statement: &'a Statement,
) -> Result<bool, AllocError>
    ensures { OnOk result ((s : ℕ) (q : List ℕ) → has names.new s q ≡ (is_key (function_key statement.now) (s, q) || has names.old s q)) }
{
    match statement {
        Statement::Function { name } => define(names, 0, name.as_slice()),
        _ => Ok(true),
    }
}

#[tactic(auto, using(crate::proofs::Knowing::names_begun, crate::proofs::Knowing::names_go_on, crate::proofs::Knowing::names_done))]
fn all_names(alloc: Global, items: &[Item]) -> Result<BTreeSet<(usize, &[u8])>, AllocError>
    requires { length items.now < 2 ^ 63 }
    ensures { IfOk result (λ names. (s : ℕ) (q : List ℕ) → has names s q ≡ is_taken (keys_in false 0 items.now) (s, q)) }
{
    let mut names = BTreeSet::new(alloc);
    let mut inside = false;
    let mut functions = 0;
    for item in items {
        take_name(&mut names, inside, functions, &item.statement)?;
        functions += begins(&item.statement);
        inside = is_inside_after(inside, &item.statement);
    }
    Ok(names)
}

/// The names of all functions, in scope 0.
#[tactic(auto, using(crate::proofs::Knowing::functions_begun, crate::proofs::Knowing::functions_go_on, crate::proofs::Knowing::functions_done))]
pub fn all_functions(alloc: Global, items: &[Item]) -> Result<BTreeSet<(usize, &[u8])>, AllocError>
    ensures { IfOk result (λ names. (s : ℕ) (q : List ℕ) → has names s q ≡ is_taken (functions_in items.now) (s, q)) }
{
    let mut names = BTreeSet::new(alloc);
    for item in items {
        take_function(&mut names, &item.statement)?;
    }
    Ok(names)
}

/// Whether the name is there, in its scope.
pub fn contains<'a>(names: &BTreeSet<(usize, &'a [u8])>, scope: usize, name: &'a [u8]) -> bool
    ensures { result ≡ has names.now scope name.now }
{
    names.contains(&(scope, name))
}

#[tactic(auto, unfolding(crate::specs::Names::is_known))]
fn is_known<'a>(
    names: &BTreeSet<(usize, &'a [u8])>,
    functions: &BTreeSet<(usize, &'a [u8])>,
    number: usize,
    statement: &'a Statement,
) -> bool
    ensures { result ≡ is_known_of (has names.now) (has functions.now) number statement.now }
{
    match statement {
        Statement::Branch { label, .. } => contains(names, number, label.as_slice()),
        Statement::Jump { target, .. } => {
            contains(names, number, target.as_slice()) || contains(functions, 0, target.as_slice())
        }
        Statement::Reference { name, .. } => contains(names, 0, name.as_slice()),
        Statement::Address { name, .. } => contains(names, 0, name.as_slice()),
        Statement::Call { name } => contains(names, 0, name.as_slice()),
        Statement::Tail { name } => contains(names, 0, name.as_slice()),
        _ => true,
    }
}

#[tactic(auto, unfolding(crate::specs::Names::unknown_line))]
fn unknown_line<'a>(
    names: &BTreeSet<(usize, &'a [u8])>,
    functions: &BTreeSet<(usize, &'a [u8])>,
    items: &'a [Item],
) -> Option<u32>
    requires { length items.now < 2 ^ 63 }
    ensures { result ≡ unknown_line_of (has names.now) (has functions.now) 0 items.now }
{
    let mut number = 0;
    for item in items {
        if !is_known(names, functions, number, &item.statement) {
            return Some(item.line);
        }
        number += begins(&item.statement);
    }
    None
}

/// The line of the first statement that names what is not defined.
#[tactic(auto, using(crate::proofs::Knowing::unknown_same))]
pub fn first_unknown(alloc: Global, items: &[Item]) -> Result<Option<u32>, NoMemory>
    requires { length items.now < 2 ^ 63 }
    ensures { IfOk result (λ line. line ≡ first_unknown_of items.now) }
{
    let names = all_names(alloc, items)?;
    let functions = all_functions(alloc, items)?;
    Ok(unknown_line(&names, &functions, items))
}
