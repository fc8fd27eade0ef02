// SPDX-License-Identifier: Apache-2.0
//! What names stand for.
ghost use Rattle.std.specs.Prelude.{◌≡◌, ◌≤◌, ◌<◌, ◌^◌, ℕ, List, true, false, None, length, IfOk, OnOk, option_map};
ghost use Rattle.asm_words.specs.Tables.{first_of};
ghost use Rattle.asm_places.specs.Places.{place_after as place_after_of, first_place};
ghost use Rattle.asm_places.specs.Ranges.{is_in_range, is_past, range_line};
ghost use Rattle.asm_places.specs.Maps.{has_at, defines, defines_by};
ghost use Rattle.asm_places.specs.Targets.{is_function as is_function_of, target_here as target_here_of, defined_by, targets_in, target_at, last_place as last_place_of};

use crate::names::key;
use crate::places::{Place, begins, data_size, is_inside_after, text_size};
use asm_text::{Item, Statement};
use std::alloc::{AllocError, Global};
use std::collections::BTreeMap;

/// What a name stands for: whether that is a function, whether it is in the text, and its offset there or in the data.
#[derive(Clone, Copy, Debug, PartialEq, Eq)]
pub struct Target {
    pub function: bool,
    pub code: bool,
    pub at: u32,
}

fn is_function(statement: &Statement) -> bool
    ensures { result ≡ is_function_of statement.now }
{
    match statement {
        Statement::Function { .. } => true,
        _ => false,
    }
}

fn target_here(place: Place, statement: &Statement) -> Target
    requires { is_past place ≡ false }
    ensures { result ≡ target_here_of place statement.now }
{
    let function = is_function(statement);
    let code = function || place.inside;
    Target {
        function,
        code,
        at: if code {
            place.text as u32
        } else {
            place.data as u32
        },
    }
}

/// The place behind a statement, by which no part grows too long.
#[tactic(auto, unfolding(crate::specs::Places::place_after))]
pub fn next_place(place: Place, statement: &Statement) -> Place
    requires range { is_in_range statement.now ≡ true }
    requires short { is_past place ≡ false }
    requires past { is_past (place_after_of place statement.now) ≡ false }
    requires functions { place.functions < 2 ^ 63 }
    ensures { result ≡ place_after_of place statement.now }
{
    Place {
        inside: is_inside_after(place.inside, statement),
        functions: place.functions + begins(statement),
        text: place.text + text_size(statement),
        data: place.data + data_size(place.data, statement),
    }
}

/// Where the first statement stands.
pub fn start() -> Place
    ensures { result ≡ first_place }
{
    Place {
        inside: false,
        functions: 0,
        text: 0,
        data: 0,
    }
}

fn define<'a>(
    targets: &mut BTreeMap<(usize, &'a [u8]), Target>,
    scope: usize,
    name: &'a [u8],
    target: Target,
) -> Result<(), AllocError>
    ensures { OnOk result ((s : ℕ) (q : List ℕ) → has_at targets.new s q ≡ first_of (defines (scope, name.now) target (s, q)) (has_at targets.old s q)) }
{
    targets.insert((scope, name), target)?;
    Ok(())
}

/// The place behind all statements, of which each is in range.
#[tactic(auto, using(crate::proofs::Placing::is_fine, crate::proofs::Placing::not_past))]
pub fn last_place(items: &[Item]) -> Place
    requires few { length items.now < 2 ^ 63 }
    requires range { range_line first_place items.now ≡ None }
    ensures place { result ≡ last_place_of first_place items.now }
    ensures short { is_past result ≡ false }
{
    let mut place = start();
    for item in items {
        place = next_place(place, &item.statement);
    }
    place
}

fn take_target<'a>(
    targets: &mut BTreeMap<(usize, &'a [u8]), Target>,
    place: Place,
    statement: &'a Statement,
) -> Result<(), AllocError>
    requires { is_past place ≡ false }
    ensures { OnOk result ((s : ℕ) (q : List ℕ) → has_at targets.new s q ≡ first_of (defines_by (defined_by place statement.now) (s, q)) (has_at targets.old s q)) }
{
    match key(place.inside, place.functions, statement) {
        Some((scope, name)) => define(targets, scope, name, target_here(place, statement)),
        None => Ok(()),
    }
}

/// What the names of the statements stand for, of which each is in range.
#[tactic(auto, using(crate::proofs::Placing::is_fine, crate::proofs::Placing::not_past))]
pub fn all_targets(
    alloc: Global,
    items: &[Item],
) -> Result<BTreeMap<(usize, &[u8]), Target>, AllocError>
    requires few { length items.now < 2 ^ 63 }
    requires range { range_line first_place items.now ≡ None }
    ensures { IfOk result (λ targets. (s : ℕ) (q : List ℕ) → has_at targets s q ≡ target_at (targets_in first_place items.now) (s, q)) }
{
    let mut targets = BTreeMap::new(alloc);
    let mut place = start();
    for item in items {
        take_target(&mut targets, place, &item.statement)?;
        place = next_place(place, &item.statement);
    }
    Ok(targets)
}
