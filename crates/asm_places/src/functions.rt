// SPDX-License-Identifier: Apache-2.0
//! The functions of a source.
ghost use Rattle.std.specs.Prelude.{◌≡◌, ◌≤◌, ◌<◌, ◌^◌, ◌++◌, true, false, None, length, IfOk, IfSome, OnOk};
ghost use Rattle.asm_places.specs.Places.{first_place};
ghost use Rattle.asm_places.specs.Ranges.{is_past, range_line};
ghost use Rattle.asm_places.specs.Functions.{ended, open_after as open_after_of, functions_from, functions_of as functions_of_of};

use crate::places::Place;
use crate::targets::{next_place, start};
use asm_text::{Item, Statement};
use sh_types::{Function, SymbolName};
use std::alloc::{AllocError, Global};

/// Where the text lies in memory.
const TEXT: u64 = 0x10000;

fn push_ended(
    functions: &mut Vec<Function>,
    begun: &Option<(SymbolName, u64)>,
    place: Place,
    statement: &Statement,
) -> Result<(), AllocError>
    requires short { is_past place ≡ false }
    requires begun { IfSome begun.now (λ b. b.1 ≤ 67108864) }
    ensures { OnOk result (functions.new.items ≡ functions.old.items ++ ended begun.now place statement.now) }
{
    match (begun, statement) {
        (Some((name, at)), Statement::EndFunction) => {
            functions.push(Function {
                home: TEXT + *at,
                size: place.text.saturating_sub(*at) as u32,
                name: name.share()?,
            })?;
            Ok(())
        }
        _ => Ok(()),
    }
}

fn open_after(
    begun: Option<(SymbolName, u64)>,
    place: Place,
    statement: &Statement,
) -> Result<Option<(SymbolName, u64)>, AllocError>
    requires short { is_past place ≡ false }
    requires begun { IfSome begun (λ b. b.1 ≤ 67108864) }
    ensures value { IfOk result (λ o. o ≡ open_after_of begun place statement.now) }
    ensures low { IfOk result (λ o. IfSome o (λ b. b.1 ≤ 67108864)) }
{
    match statement {
        Statement::Function { name } => Ok(Some((name.share()?, place.text))),
        Statement::EndFunction => Ok(None),
        _ => Ok(begun),
    }
}

/// The functions of a source, each behind the one before, where each statement is in range.
#[tactic(auto, using(crate::proofs::Placing::is_fine, crate::proofs::Placing::not_past))]
pub fn functions_of(alloc: Global, items: &[Item]) -> Result<Vec<Function>, AllocError>
    requires few { length items.now < 2 ^ 63 }
    requires range { range_line first_place items.now ≡ None }
    ensures { IfOk result (λ v. v.items ≡ functions_of_of items.now) }
{
    let mut functions = Vec::new(alloc);
    let mut begun = None;
    let mut place = start();
    for item in items {
        push_ended(&mut functions, &begun, place, &item.statement)?;
        begun = open_after(begun, place, &item.statement)?;
        place = next_place(place, &item.statement);
    }
    Ok(functions)
}
