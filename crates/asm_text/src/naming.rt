// SPDX-License-Identifier: Apache-2.0
//! Statements with names.
ghost use Rattle.std.specs.Prelude.{◌≡◌};
ghost use Rattle.asm_words.specs.Results.{Gives};
ghost use Rattle.asm_text.specs.Statements.{branch_form as branch_form_of, branch_zero_form as branch_zero_form_of, jump_form as jump_form_of, address_form as address_form_of, naming_of};

use crate::statements::Statement;
use asm_words::{Naming, Unread, name, register_and_name, register_first};
use rv_table::Op;
use std::alloc::Global;

#[tactic(auto, unfolding(crate::specs::Statements::branch_form))]
fn branch_form(alloc: Global, op: Op, text: &[u8]) -> Result<Statement, Unread>
    ensures { Gives (λ x. x) result (branch_form_of op text.now) }
{
    let (rs1, rest) = register_first(text).ok_or(Unread::Form)?;
    let (rs2, label) = register_and_name(alloc, rest)?;
    Ok(Statement::Branch {
        op,
        rs1,
        rs2,
        label,
    })
}

#[tactic(auto, unfolding(crate::specs::Statements::branch_zero_form))]
fn branch_zero_form(alloc: Global, op: Op, text: &[u8]) -> Result<Statement, Unread>
    ensures { Gives (λ x. x) result (branch_zero_form_of op text.now) }
{
    let (rs1, label) = register_and_name(alloc, text)?;
    Ok(Statement::Branch {
        op,
        rs1,
        rs2: 0,
        label,
    })
}

#[tactic(auto, unfolding(crate::specs::Statements::jump_form))]
fn jump_form(alloc: Global, text: &[u8]) -> Result<Statement, Unread>
    ensures { Gives (λ x. x) result (jump_form_of text.now) }
{
    let (rd, target) = register_and_name(alloc, text)?;
    Ok(Statement::Jump { rd, target })
}

#[tactic(auto, unfolding(crate::specs::Statements::address_form))]
fn address_form(alloc: Global, text: &[u8]) -> Result<Statement, Unread>
    ensures { Gives (λ x. x) result (address_form_of text.now) }
{
    let (rd, name) = register_and_name(alloc, text)?;
    Ok(Statement::Address { rd, name })
}

/// The statement of this shape with these operands, among them a name.
#[tactic(auto, unfolding(crate::specs::Statements::naming_of))]
pub fn naming(alloc: Global, shape: Naming, text: &[u8]) -> Result<Statement, Unread>
    ensures { Gives (λ x. x) result (naming_of shape text.now) }
{
    match shape {
        Naming::Branch { op } => branch_form(alloc, op, text),
        Naming::BranchZero { op } => branch_zero_form(alloc, op, text),
        Naming::Entry => Ok(Statement::Entry {
            name: name(alloc, text)?,
        }),
        Naming::Function => Ok(Statement::Function {
            name: name(alloc, text)?,
        }),
        Naming::Jump => jump_form(alloc, text),
        Naming::ToLabel => Ok(Statement::Jump {
            rd: 0,
            target: name(alloc, text)?,
        }),
        Naming::Address => address_form(alloc, text),
        Naming::Call => Ok(Statement::Call {
            name: name(alloc, text)?,
        }),
        Naming::Tail => Ok(Statement::Tail {
            name: name(alloc, text)?,
        }),
    }
}
