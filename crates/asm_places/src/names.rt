// SPDX-License-Identifier: Apache-2.0
//! Names that are defined twice.
ghost use Rattle.std.specs.Prelude.{◌≡◌, ◌<◌, ◌^◌, ◌||◌, [], ℕ, List, false, not, length, option_map, IfOk, OnOk};
ghost use Rattle.asm_places.specs.Names.{is_entry as is_entry_of, entry_twice_line as entry_twice_line_of, key_of, same_key, name_twice_line as name_twice_line_of};
ghost use Rattle.asm_places.specs.Sets.{has, has_key, is_key};

use crate::places::{begins, is_inside_after};
use asm_text::{Item, Statement};
use sh_types::NoMemory;
use std::alloc::{AllocError, Global};
use std::collections::BTreeSet;

fn is_entry(statement: &Statement) -> bool
    ensures { result ≡ is_entry_of statement.now }
{
    match statement {
        Statement::Entry { .. } => true,
        _ => false,
    }
}

/// The line of the second `.entry`.
#[tactic(auto, unfolding(crate::specs::Names::entry_twice_line))]
pub fn entry_twice_line(items: &[Item]) -> Option<u32>
    ensures { result ≡ entry_twice_line_of false items.now }
{
    let mut seen = false;
    for item in items {
        let entry = is_entry(&item.statement);
        if seen && entry {
            return Some(item.line);
        }
        seen = seen || entry;
    }
    None
}

/// The scope and the name that the statement defines, behind so many functions.
#[tactic(auto, unfolding(crate::specs::Names::key_of))]
pub fn key(inside: bool, functions: usize, statement: &Statement) -> Option<(usize, &[u8])>
    ensures { option_map (λ k. (k.0, k.1.now)) result ≡ key_of inside functions statement.now }
{
    match statement {
        Statement::Function { name } => Some((0, name.as_slice())),
        Statement::Label { name } => {
            let scope = if inside { functions } else { 0 };
            Some((scope, name.as_slice()))
        }
        _ => None,
    }
}

/// Adds a name to its scope, and says whether it was not there.
pub fn define<'a>(
    names: &mut BTreeSet<(usize, &'a [u8])>,
    scope: usize,
    name: &'a [u8],
) -> Result<bool, AllocError>
    ensures fresh { IfOk result (λ fresh. fresh ≡ not (has names.old scope name.now)) }
    ensures after { OnOk result ((s : ℕ) (q : List ℕ) → has names.new s q ≡ (same_key (scope, name.now) (s, q) || has names.old s q)) }
{
    Ok(names.insert((scope, name))?)
}

/// Adds the name that a statement defines, and says whether it was not there.
pub fn take_name<'a>(
    names: &mut BTreeSet<(usize, &'a [u8])>,
    inside: bool,
    functions: usize,
    statement: &'a Statement,
) -> Result<bool, AllocError>
    ensures fresh { IfOk result (λ fresh. fresh ≡ not (has_key names.old (key_of inside functions statement.now))) }
    ensures after { OnOk result ((s : ℕ) (q : List ℕ) → has names.new s q ≡ (is_key (key_of inside functions statement.now) (s, q) || has names.old s q)) }
{
    match key(inside, functions, statement) {
        Some((scope, name)) => define(names, scope, name),
        None => Ok(true),
    }
}

/// The line of the first name that is defined again in its scope.
#[tactic(auto, using(crate::proofs::Naming::begun, crate::proofs::Naming::goes_on, crate::proofs::Naming::ends, crate::proofs::Naming::ran_out))]
pub fn name_twice_line(alloc: Global, items: &[Item]) -> Result<Option<u32>, NoMemory>
    requires { length items.now < 2 ^ 63 }
    ensures { IfOk result (λ line. line ≡ name_twice_line_of false 0 [] items.now) }
{
    let mut names = BTreeSet::new(alloc);
    let mut inside = false;
    let mut functions = 0;
    for item in items {
        let fresh = take_name(&mut names, inside, functions, &item.statement)?;
        if !fresh {
            return Ok(Some(item.line));
        }
        functions += begins(&item.statement);
        inside = is_inside_after(inside, &item.statement);
    }
    Ok(None)
}
