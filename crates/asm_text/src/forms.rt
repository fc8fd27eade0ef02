// SPDX-License-Identifier: Apache-2.0
//! Statements of registers and numbers.
ghost use Rattle.std.specs.Prelude.{◌≡◌, option_map};
ghost use Rattle.asm_text.specs.Statements.{register_form as register_form_of, immediate_form as immediate_form_of, memory_form as memory_form_of, store_form as store_form_of, upper_form as upper_form_of, atomic_form as atomic_form_of, reserve_form as reserve_form_of, alone as alone_of, move_form as move_form_of, to_register_form as to_register_form_of, literal_form as literal_form_of, plain_of, instruction as instruction_of};

use crate::statements::Statement;
use asm_words::{
    Plain, based, indexed, is_nothing, number, register, register_and_number, register_first,
};
use rv_table::Op;

fn instruction(op: Op, rd: u8, rs1: u8, rs2: u8, imm: i128) -> Statement
    ensures { result ≡ instruction_of op rd rs1 rs2 imm }
{
    Statement::Plain {
        op,
        rd,
        rs1,
        rs2,
        imm,
    }
}

#[tactic(auto, unfolding(crate::specs::Statements::register_form))]
fn register_form(op: Op, text: &[u8]) -> Option<Statement>
    ensures { result ≡ register_form_of op text.now }
{
    let (rd, rest) = register_first(text)?;
    let (rs1, rest) = register_first(rest)?;
    let rs2 = register(rest)?;
    Some(instruction(op, rd, rs1, rs2, 0))
}

#[tactic(auto, unfolding(crate::specs::Statements::immediate_form))]
fn immediate_form(op: Op, text: &[u8]) -> Option<Statement>
    ensures { result ≡ immediate_form_of op text.now }
{
    let (rd, rest) = register_first(text)?;
    let (rs1, imm) = register_and_number(rest)?;
    Some(instruction(op, rd, rs1, 0, imm))
}

#[tactic(auto, unfolding(crate::specs::Statements::memory_form))]
fn memory_form(op: Op, text: &[u8]) -> Option<Statement>
    ensures { result ≡ memory_form_of op text.now }
{
    let (rd, rest) = register_first(text)?;
    let (imm, rs1) = indexed(rest)?;
    Some(instruction(op, rd, rs1, 0, imm))
}

#[tactic(auto, unfolding(crate::specs::Statements::store_form))]
fn store_form(op: Op, text: &[u8]) -> Option<Statement>
    ensures { result ≡ store_form_of op text.now }
{
    let (rs2, rest) = register_first(text)?;
    let (imm, rs1) = indexed(rest)?;
    Some(instruction(op, 0, rs1, rs2, imm))
}

#[tactic(auto, unfolding(crate::specs::Statements::upper_form))]
fn upper_form(op: Op, text: &[u8]) -> Option<Statement>
    ensures { result ≡ upper_form_of op text.now }
{
    let (rd, value) = register_and_number(text)?;
    Some(Statement::Upper { op, rd, value })
}

#[tactic(auto, unfolding(crate::specs::Statements::atomic_form))]
fn atomic_form(op: Op, text: &[u8]) -> Option<Statement>
    ensures { result ≡ atomic_form_of op text.now }
{
    let (rd, rest) = register_first(text)?;
    let (rs2, rest) = register_first(rest)?;
    let rs1 = based(rest)?;
    Some(instruction(op, rd, rs1, rs2, 0))
}

#[tactic(auto, unfolding(crate::specs::Statements::reserve_form))]
fn reserve_form(op: Op, text: &[u8]) -> Option<Statement>
    ensures { result ≡ reserve_form_of op text.now }
{
    let (rd, rest) = register_first(text)?;
    let rs1 = based(rest)?;
    Some(instruction(op, rd, rs1, 0, 0))
}

#[tactic(auto, unfolding(crate::specs::Statements::alone))]
fn alone(statement: Statement, text: &[u8]) -> Option<Statement>
    ensures { result ≡ alone_of statement text.now }
{
    if is_nothing(text) {
        Some(statement)
    } else {
        None
    }
}

#[tactic(auto, unfolding(crate::specs::Statements::move_form))]
fn move_form(text: &[u8]) -> Option<Statement>
    ensures { result ≡ move_form_of text.now }
{
    let (rd, rest) = register_first(text)?;
    let rs = register(rest)?;
    Some(instruction(Op::Addi, rd, rs, 0, 0))
}

#[tactic(auto, unfolding(crate::specs::Statements::to_register_form))]
fn to_register_form(text: &[u8]) -> Option<Statement>
    ensures { result ≡ to_register_form_of text.now }
{
    let rs = register(text)?;
    Some(instruction(Op::Jalr, 0, rs, 0, 0))
}

#[tactic(auto, unfolding(crate::specs::Statements::literal_form))]
fn literal_form(text: &[u8]) -> Option<Statement>
    ensures { result ≡ literal_form_of text.now }
{
    let (rd, value) = register_and_number(text)?;
    Some(Statement::Literal { rd, value })
}

/// The statement of this shape with these operands, which name nothing; None where they are none.
#[tactic(auto, unfolding(crate::specs::Statements::plain_of))]
pub fn plain(shape: Plain, text: &[u8]) -> Option<Statement>
    ensures { result ≡ plain_of shape text.now }
{
    match shape {
        Plain::Register { op } => register_form(op, text),
        Plain::Immediate { op } => immediate_form(op, text),
        Plain::Memory { op } => memory_form(op, text),
        Plain::Store { op } => store_form(op, text),
        Plain::Upper { op } => upper_form(op, text),
        Plain::Atomic { op } => atomic_form(op, text),
        Plain::Reserve { op } => reserve_form(op, text),
        Plain::Bare { op } => alone(instruction(op, 0, 0, 0, 0), text),
        Plain::Nop => alone(instruction(Op::Addi, 0, 0, 0, 0), text),
        Plain::Move => move_form(text),
        Plain::Return => alone(instruction(Op::Jalr, 0, 1, 0, 0), text),
        Plain::ToRegister => to_register_form(text),
        Plain::Literal => literal_form(text),
        Plain::EndFunction => alone(Statement::EndFunction, text),
        Plain::Raw => Some(Statement::Raw {
            value: number(text)?,
        }),
        Plain::Nops => Some(Statement::Nops {
            count: number(text)?,
        }),
        Plain::Zero => Some(Statement::Zero {
            count: number(text)?,
        }),
        Plain::Align => Some(Statement::Align { to: number(text)? }),
    }
}
