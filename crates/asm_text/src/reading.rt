// SPDX-License-Identifier: Apache-2.0
//! The statements of one text between `;`s.
ghost use Rattle.std.specs.Prelude.{◌≡◌, ◌∷◌, [], option_map, Some};
ghost use Rattle.asm_words.specs.Results.{Gives};
ghost use Rattle.asm_text.specs.Reading.{Grows};
ghost use Rattle.asm_text.specs.Statements.{value_of, values_of, alone_in, body_of, unlabelled as unlabelled_of, label_of, statement_of};

use crate::forms::plain;
use crate::naming::naming;
use crate::statements::{Item, Statement};
use asm_words::{
    Shape, Unread, cut, first_word, is_name, name, number, shape_named, string, trimmed,
};
use sh_types::SymbolName;
use std::alloc::Global;

#[tactic(auto, unfolding(crate::specs::Statements::value_of))]
fn value(alloc: Global, width: u8, names: bool, text: &[u8]) -> Result<Statement, Unread>
    ensures { Gives (λ s. s) result (value_of width names text.now) }
{
    if let Some(value) = number(text) {
        return Ok(Statement::Value { width, value });
    }
    if !names {
        return Err(Unread::Form);
    }
    Ok(Statement::Reference {
        width,
        name: name(alloc, text)?,
    })
}

#[tactic(auto, using(crate::proofs::Growing::one_more))]
fn push(items: &mut Vec<Item>, line: u32, statement: Statement) -> Result<(), Unread>
    ensures { Grows items.old.items items.new.items line result (Some (statement ∷ [])) }
{
    items.push(Item { line, statement })?;
    Ok(())
}

fn push_value(
    alloc: Global,
    items: &mut Vec<Item>,
    line: u32,
    width: u8,
    names: bool,
    text: &[u8],
) -> Result<(), Unread>
    ensures { Grows items.old.items items.new.items line result (alone_in (value_of width names text.now)) }
{
    let statement = value(alloc, width, names, text)?;
    push(items, line, statement)
}

#[tactic(auto, using(crate::proofs::Growing::shorter_cut), unfolding(crate::specs::Statements::values_of))]
fn push_values(
    alloc: Global,
    items: &mut Vec<Item>,
    line: u32,
    width: u8,
    names: bool,
    text: &[u8],
) -> Result<(), Unread>
    ensures { Grows items.old.items items.new.items line result (values_of width names text.now) }
{
    let mut rest = text;
    'values: loop {
        match cut(rest, b',') {
            Some((first, behind)) => {
                push_value(alloc, items, line, width, names, first)?;
                rest = behind;
            }
            None => return push_value(alloc, items, line, width, names, rest),
        }
    }
}

#[tactic(auto, unfolding(crate::specs::Statements::body_of))]
fn push_body(
    alloc: Global,
    items: &mut Vec<Item>,
    line: u32,
    shape: Shape,
    text: &[u8],
) -> Result<(), Unread>
    ensures { Grows items.old.items items.new.items line result (body_of shape text.now) }
{
    match shape {
        Shape::Plain { shape } => {
            let statement = plain(shape, text).ok_or(Unread::Form)?;
            push(items, line, statement)
        }
        Shape::Naming { shape } => {
            let statement = naming(alloc, shape, text)?;
            push(items, line, statement)
        }
        Shape::Values { width, names } => push_values(alloc, items, line, width, names, text),
        Shape::Ascii => {
            let bytes = string(alloc, text)?;
            push(items, line, Statement::Ascii { bytes })
        }
    }
}

#[tactic(auto, using(crate::proofs::Growing::nothing_more), unfolding(crate::specs::Statements::unlabelled))]
fn push_unlabelled(
    alloc: Global,
    items: &mut Vec<Item>,
    line: u32,
    text: &[u8],
) -> Result<(), Unread>
    ensures { Grows items.old.items items.new.items line result (unlabelled_of text.now) }
{
    if text.is_empty() {
        return Ok(());
    }
    let (word, operands) = first_word(text);
    let shape = shape_named(word).ok_or(Unread::Form)?;
    push_body(alloc, items, line, shape, operands)
}

#[tactic(auto, unfolding(crate::specs::Statements::label_of))]
fn label(text: &[u8]) -> Option<(&[u8], &[u8])>
    ensures { option_map (λ x. (x.0.now, x.1.now)) result ≡ label_of text.now }
{
    let (name, behind) = cut(text, b':')?;
    if is_name(name) {
        Some((name, behind))
    } else {
        None
    }
}

/// Adds the statements of one text of a line.
#[tactic(auto, unfolding(crate::specs::Statements::statement_of))]
pub fn push_statement(
    alloc: Global,
    items: &mut Vec<Item>,
    line: u32,
    text: &[u8],
) -> Result<(), Unread>
    ensures { Grows items.old.items items.new.items line result (statement_of text.now) }
{
    let text = trimmed(text);
    if let Some((name, behind)) = label(text) {
        let name = SymbolName::from_slice(alloc, name)?;
        push(items, line, Statement::Label { name })?;
        push_unlabelled(alloc, items, line, trimmed(behind))
    } else {
        push_unlabelled(alloc, items, line, text)
    }
}
