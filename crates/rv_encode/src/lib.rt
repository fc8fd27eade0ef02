// SPDX-License-Identifier: Apache-2.0
//! Instructions to words: RV64IMA as the tables of the RISC-V Unprivileged ISA have it ("RV32/64G Instruction Set
//! Listings"), and the machine forms of copies.
#![tactic(auto)]

ghost use Rattle.std.specs.Prelude.{◌≡◌, IfSome, IfNone, Some};
ghost use Rattle.rv_table.specs.Instruction.{Encodes, IsInstr, word_of};
ghost use Rattle.rv_table.specs.Decoding.{decoded};
ghost use Rattle.rv_table.specs.MachineForm.{EncodesX, IsXInstr, x_word_of, decoded_x};
ghost use Rattle.rv_table.specs.declared.instructions.Op.TheVariants.{Jal};

mod forms;
mod laws;
mod placing;
mod ranges;
mod rows;

use forms::{
    atomic, branch, fencing, immediate, jump, register, reserving, shift5, shift6, storing, upper,
    whole,
};
pub use laws::known_words;
use placing::{placed, placed_long, top};
use ranges::signed_12;
use rows::row_for;
use rv_table::{Form, Instr, Op, XInstr};

fn word_for(instr: &Instr) -> Option<u32>
    ensures some { IfSome result (λ w. Encodes instr.now w) }
    ensures none { IfNone result (IsInstr instr.now → ⊥) }
{
    let row = row_for(instr.op);
    match row.form {
        Form::Upper => upper(row, instr),
        Form::Jump => jump(row, instr),
        Form::Branch => branch(row, instr),
        Form::Immediate => immediate(row, instr),
        Form::Storing => storing(row, instr),
        Form::Register => register(row, instr),
        Form::Shift6 => shift6(row, instr),
        Form::Shift5 => shift5(row, instr),
        Form::Atomic => atomic(row, instr),
        Form::Reserving => reserving(row, instr),
        Form::Fencing => fencing(row, instr),
        Form::Whole => whole(row, instr),
    }
}

/// The word of the instruction, which decoding gives back; None where a field is out of the range of the form: a
/// register of 32 or more, an immediate that is too wide or not a multiple of its scale, or a number other than 0 in a
/// field that the form lacks.
#[tactic(auto, using(rv_table::proofs::Reading::spelled_read, crate::proofs::Spelling::spelled_is))]
pub fn encode(instr: &Instr) -> Option<u32>
    ensures some { IfSome result (λ w. Encodes instr.now w) }
    ensures word { IfSome result (λ w. w ≡ word_of instr.now) }
    ensures read { IfSome result (λ w. decoded w ≡ Some instr.now) }
    ensures none { IfNone result (IsInstr instr.now → ⊥) }
{
    word_for(instr)
}

/// The word of `jal rd, .+distance`; None where rd is 32 or more, or the distance is odd or not from -2^20 to 2^20 - 2
/// bytes.
pub fn encode_jal(rd: u8, distance: i64) -> Option<u32>
    ensures some { IfSome result (λ w. Encodes (record { op = Jal; rd = rd; rs1 = 0; rs2 = 0; imm = distance }) w) }
    ensures word { IfSome result (λ w. w ≡ word_of (record { op = Jal; rd = rd; rs1 = 0; rs2 = 0; imm = distance })) }
    ensures read { IfSome result (λ w. decoded w ≡ Some (record { op = Jal; rd = rd; rs1 = 0; rs2 = 0; imm = distance })) }
    ensures none { IfNone result (IsInstr (record { op = Jal; rd = rd; rs1 = 0; rs2 = 0; imm = distance }) → ⊥) }
{
    encode(&Instr {
        op: Op::Jal,
        rd,
        rs1: 0,
        rs2: 0,
        imm: distance,
    })
}

/// The word of a machine form, which `decode_x` gives back; None where a register is 32 or more, a literal's number is
/// 2^20 or more, or an immediate is not from -2048 to 2047.
#[tactic(auto, using(rv_table::proofs::MachineWords::spelled_x_read, crate::proofs::Spelling::spelled_x_is))]
pub fn encode_x(instr: &XInstr) -> Option<u32>
    ensures some { IfSome result (λ w. EncodesX instr.now w) }
    ensures word { IfSome result (λ w. w ≡ x_word_of instr.now) }
    ensures read { IfSome result (λ w. decoded_x w ≡ Some instr.now) }
    ensures none { IfNone result (IsXInstr instr.now → ⊥) }
{
    x_word_for(instr)
}

fn x_word_for(instr: &XInstr) -> Option<u32>
    ensures some { IfSome result (λ w. EncodesX instr.now w) }
    ensures none { IfNone result (IsXInstr instr.now → ⊥) }
{
    match *instr {
        XInstr::Lit { rd, row } => {
            if rd >= 32 || row >= 0x10_0000 {
                None
            } else {
                Some(placed_long(0x0b, rd, row))
            }
        }
        XInstr::Sra { imm } => {
            let imm = signed_12(imm)?;
            Some(placed(0x2b, imm % 32, 0, 2, top(1, imm / 32)))
        }
        XInstr::Lra { imm } => Some(placed(0x2b, 1, 1, 2, signed_12(imm)?)),
        XInstr::Tjalr { rd, rs1, imm } => {
            if rd >= 32 || rs1 >= 32 {
                return None;
            }
            Some(placed(0x2b, u32::from(rd), 2, rs1, signed_12(imm)?))
        }
    }
}
