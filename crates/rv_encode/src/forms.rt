// SPDX-License-Identifier: Apache-2.0
//! For each form, the word of an instruction whose row has it.
ghost use Rattle.std.specs.Prelude.{◌≡◌, ◌^◌, ◌<◌, IfSome, IfNone};
ghost use Rattle.rv_table.specs.Instruction.{row_of, Encodes, IsInstr};

use crate::placing::{branch_high, branch_low, jump_field, placed, placed_long, top};
use crate::ranges::{below, signed_12, signed_13, signed_21, signed_32};
use rv_table::{Form, Instr, Row};

#[tactic(auto, using(crate::proofs::Spelling::encodes_by, crate::proofs::Spelling::fits_by))]
pub fn upper(row: Row, instr: &Instr) -> Option<u32>
    requires row { row ≡ row_of instr.now.op }
    requires form { row.form ≡ Form.Upper }
    requires opcode { row.opcode < 2 ^ 7 }
    ensures some { IfSome result (λ w. Encodes instr.now w) }
    ensures none { IfNone result (IsInstr instr.now → ⊥) }
{
    if instr.rd >= 32 || instr.rs1 != 0 || instr.rs2 != 0 {
        return None;
    }
    let imm = signed_32(instr.imm)?;
    if imm % 4096 != 0 {
        return None;
    }
    Some(placed_long(row.opcode, instr.rd, imm / 4096))
}

#[tactic(auto, using(crate::proofs::Spelling::encodes_by, crate::proofs::Spelling::fits_by))]
pub fn jump(row: Row, instr: &Instr) -> Option<u32>
    requires row { row ≡ row_of instr.now.op }
    requires form { row.form ≡ Form.Jump }
    requires opcode { row.opcode < 2 ^ 7 }
    ensures some { IfSome result (λ w. Encodes instr.now w) }
    ensures none { IfNone result (IsInstr instr.now → ⊥) }
{
    if instr.rd >= 32 || instr.rs1 != 0 || instr.rs2 != 0 {
        return None;
    }
    let imm = signed_21(instr.imm)?;
    if imm % 2 != 0 {
        return None;
    }
    Some(placed_long(row.opcode, instr.rd, jump_field(imm)))
}

#[tactic(auto, using(crate::proofs::Spelling::encodes_by, crate::proofs::Spelling::fits_by))]
pub fn branch(row: Row, instr: &Instr) -> Option<u32>
    requires row { row ≡ row_of instr.now.op }
    requires form { row.form ≡ Form.Branch }
    requires opcode { row.opcode < 2 ^ 7 }
    requires funct3 { row.funct3 < 2 ^ 3 }
    ensures some { IfSome result (λ w. Encodes instr.now w) }
    ensures none { IfNone result (IsInstr instr.now → ⊥) }
{
    if instr.rd != 0 || instr.rs1 >= 32 || instr.rs2 >= 32 {
        return None;
    }
    let imm = signed_13(instr.imm)?;
    if imm % 2 != 0 {
        return None;
    }
    let high = top(instr.rs2, branch_high(imm));
    Some(placed(row.opcode, branch_low(imm), row.funct3, instr.rs1, high))
}

#[tactic(auto, using(crate::proofs::Spelling::encodes_by, crate::proofs::Spelling::fits_by))]
pub fn immediate(row: Row, instr: &Instr) -> Option<u32>
    requires row { row ≡ row_of instr.now.op }
    requires form { row.form ≡ Form.Immediate }
    requires opcode { row.opcode < 2 ^ 7 }
    requires funct3 { row.funct3 < 2 ^ 3 }
    ensures some { IfSome result (λ w. Encodes instr.now w) }
    ensures none { IfNone result (IsInstr instr.now → ⊥) }
{
    if instr.rd >= 32 || instr.rs1 >= 32 || instr.rs2 != 0 {
        return None;
    }
    let imm = signed_12(instr.imm)?;
    Some(placed(row.opcode, u32::from(instr.rd), row.funct3, instr.rs1, imm))
}

#[tactic(auto, using(crate::proofs::Spelling::encodes_by, crate::proofs::Spelling::fits_by))]
pub fn storing(row: Row, instr: &Instr) -> Option<u32>
    requires row { row ≡ row_of instr.now.op }
    requires form { row.form ≡ Form.Storing }
    requires opcode { row.opcode < 2 ^ 7 }
    requires funct3 { row.funct3 < 2 ^ 3 }
    ensures some { IfSome result (λ w. Encodes instr.now w) }
    ensures none { IfNone result (IsInstr instr.now → ⊥) }
{
    if instr.rd != 0 || instr.rs1 >= 32 || instr.rs2 >= 32 {
        return None;
    }
    let imm = signed_12(instr.imm)?;
    Some(placed(
        row.opcode,
        imm % 32,
        row.funct3,
        instr.rs1,
        top(instr.rs2, imm / 32),
    ))
}

#[tactic(auto, using(crate::proofs::Spelling::encodes_by, crate::proofs::Spelling::fits_by))]
pub fn register(row: Row, instr: &Instr) -> Option<u32>
    requires row { row ≡ row_of instr.now.op }
    requires form { row.form ≡ Form.Register }
    requires opcode { row.opcode < 2 ^ 7 }
    requires funct3 { row.funct3 < 2 ^ 3 }
    requires above { row.above < 2 ^ 7 }
    ensures some { IfSome result (λ w. Encodes instr.now w) }
    ensures none { IfNone result (IsInstr instr.now → ⊥) }
{
    if instr.rd >= 32 || instr.rs1 >= 32 || instr.rs2 >= 32 || instr.imm != 0 {
        return None;
    }
    Some(placed(
        row.opcode,
        u32::from(instr.rd),
        row.funct3,
        instr.rs1,
        top(instr.rs2, row.above),
    ))
}

#[tactic(auto, using(crate::proofs::Spelling::encodes_by, crate::proofs::Spelling::fits_by))]
pub fn shift6(row: Row, instr: &Instr) -> Option<u32>
    requires row { row ≡ row_of instr.now.op }
    requires form { row.form ≡ Form.Shift6 }
    requires opcode { row.opcode < 2 ^ 7 }
    requires funct3 { row.funct3 < 2 ^ 3 }
    requires above { row.above < 2 ^ 6 }
    ensures some { IfSome result (λ w. Encodes instr.now w) }
    ensures none { IfNone result (IsInstr instr.now → ⊥) }
{
    if instr.rd >= 32 || instr.rs1 >= 32 || instr.rs2 != 0 {
        return None;
    }
    let imm = below(instr.imm, 64)?;
    Some(placed(
        row.opcode,
        u32::from(instr.rd),
        row.funct3,
        instr.rs1,
        imm | row.above << 6,
    ))
}

#[tactic(auto, using(crate::proofs::Spelling::encodes_by, crate::proofs::Spelling::fits_by))]
pub fn shift5(row: Row, instr: &Instr) -> Option<u32>
    requires row { row ≡ row_of instr.now.op }
    requires form { row.form ≡ Form.Shift5 }
    requires opcode { row.opcode < 2 ^ 7 }
    requires funct3 { row.funct3 < 2 ^ 3 }
    requires above { row.above < 2 ^ 7 }
    ensures some { IfSome result (λ w. Encodes instr.now w) }
    ensures none { IfNone result (IsInstr instr.now → ⊥) }
{
    if instr.rd >= 32 || instr.rs1 >= 32 || instr.rs2 != 0 {
        return None;
    }
    let imm = below(instr.imm, 32)?;
    Some(placed(
        row.opcode,
        u32::from(instr.rd),
        row.funct3,
        instr.rs1,
        imm | row.above << 5,
    ))
}

#[tactic(auto, using(crate::proofs::Spelling::encodes_by, crate::proofs::Spelling::fits_by))]
pub fn atomic(row: Row, instr: &Instr) -> Option<u32>
    requires row { row ≡ row_of instr.now.op }
    requires form { row.form ≡ Form.Atomic }
    requires opcode { row.opcode < 2 ^ 7 }
    requires funct3 { row.funct3 < 2 ^ 3 }
    requires above { row.above < 2 ^ 5 }
    ensures some { IfSome result (λ w. Encodes instr.now w) }
    ensures none { IfNone result (IsInstr instr.now → ⊥) }
{
    if instr.rd >= 32 || instr.rs1 >= 32 || instr.rs2 >= 32 {
        return None;
    }
    let imm = below(instr.imm, 4)?;
    Some(placed(
        row.opcode,
        u32::from(instr.rd),
        row.funct3,
        instr.rs1,
        top(instr.rs2, imm | row.above << 2),
    ))
}

#[tactic(auto, using(crate::proofs::Spelling::encodes_by, crate::proofs::Spelling::fits_by))]
pub fn reserving(row: Row, instr: &Instr) -> Option<u32>
    requires row { row ≡ row_of instr.now.op }
    requires form { row.form ≡ Form.Reserving }
    requires opcode { row.opcode < 2 ^ 7 }
    requires funct3 { row.funct3 < 2 ^ 3 }
    requires above { row.above < 2 ^ 5 }
    ensures some { IfSome result (λ w. Encodes instr.now w) }
    ensures none { IfNone result (IsInstr instr.now → ⊥) }
{
    if instr.rd >= 32 || instr.rs1 >= 32 || instr.rs2 != 0 {
        return None;
    }
    let imm = below(instr.imm, 4)?;
    Some(placed(
        row.opcode,
        u32::from(instr.rd),
        row.funct3,
        instr.rs1,
        top(0, imm | row.above << 2),
    ))
}

#[tactic(auto, using(crate::proofs::Spelling::encodes_by, crate::proofs::Spelling::fits_by))]
pub fn fencing(row: Row, instr: &Instr) -> Option<u32>
    requires row { row ≡ row_of instr.now.op }
    requires form { row.form ≡ Form.Fencing }
    requires opcode { row.opcode < 2 ^ 7 }
    requires funct3 { row.funct3 < 2 ^ 3 }
    ensures some { IfSome result (λ w. Encodes instr.now w) }
    ensures none { IfNone result (IsInstr instr.now → ⊥) }
{
    if instr.rd >= 32 || instr.rs1 >= 32 || instr.rs2 != 0 {
        return None;
    }
    let imm = below(instr.imm, 4096)?;
    Some(placed(row.opcode, u32::from(instr.rd), row.funct3, instr.rs1, imm))
}

#[tactic(auto, using(crate::proofs::Spelling::encodes_by, crate::proofs::Spelling::fits_by))]
pub fn whole(row: Row, instr: &Instr) -> Option<u32>
    requires row { row ≡ row_of instr.now.op }
    requires form { row.form ≡ Form.Whole }
    requires opcode { row.opcode < 2 ^ 7 }
    requires above { row.above < 2 ^ 12 }
    ensures some { IfSome result (λ w. Encodes instr.now w) }
    ensures none { IfNone result (IsInstr instr.now → ⊥) }
{
    if instr.rd != 0 || instr.rs1 != 0 || instr.rs2 != 0 || instr.imm != 0 {
        return None;
    }
    Some(row.opcode | row.above << 20)
}
