// SPDX-License-Identifier: Apache-2.0
//! The rows of the table, for each mnemonic (RISC-V Unprivileged ISA, "RV32/64G Instruction Set Listings").
ghost use Rattle.std.specs.Prelude.{◌≡◌, ◌<◌, ◌^◌};
ghost use Rattle.rv_table.specs.Instruction.{row_of};
ghost use Rattle.rv_encode.specs.Rows.{above_width};

use rv_table::{Form, Op, Row};

const fn new_row(form: Form, opcode: u32, funct3: u32, above: u32) -> Row
    ensures { result ≡ record { form = form; opcode = opcode; funct3 = funct3; above = above } }
{
    Row {
        form,
        opcode,
        funct3,
        above,
    }
}

#[tactic(auto, unfolding(rv_table::specs::Instruction::row_of))]
pub fn row_for(op: Op) -> Row
    ensures row { result ≡ row_of op }
    ensures opcode { result.opcode < 2 ^ 7 }
    ensures funct3 { result.funct3 < 2 ^ 3 }
    ensures above { result.above < 2 ^ above_width result.form }
{
    match op {
        Op::Lui => new_row(Form::Upper, 0x37, 0, 0x00),
        Op::Auipc => new_row(Form::Upper, 0x17, 0, 0x00),
        Op::Jal => new_row(Form::Jump, 0x6f, 0, 0x00),
        Op::Jalr => new_row(Form::Immediate, 0x67, 0, 0x00),
        Op::Beq => new_row(Form::Branch, 0x63, 0, 0x00),
        Op::Bne => new_row(Form::Branch, 0x63, 1, 0x00),
        Op::Blt => new_row(Form::Branch, 0x63, 4, 0x00),
        Op::Bge => new_row(Form::Branch, 0x63, 5, 0x00),
        Op::Bltu => new_row(Form::Branch, 0x63, 6, 0x00),
        Op::Bgeu => new_row(Form::Branch, 0x63, 7, 0x00),
        Op::Lb => new_row(Form::Immediate, 0x03, 0, 0x00),
        Op::Lh => new_row(Form::Immediate, 0x03, 1, 0x00),
        Op::Lw => new_row(Form::Immediate, 0x03, 2, 0x00),
        Op::Ld => new_row(Form::Immediate, 0x03, 3, 0x00),
        Op::Lbu => new_row(Form::Immediate, 0x03, 4, 0x00),
        Op::Lhu => new_row(Form::Immediate, 0x03, 5, 0x00),
        Op::Lwu => new_row(Form::Immediate, 0x03, 6, 0x00),
        Op::Sb => new_row(Form::Storing, 0x23, 0, 0x00),
        Op::Sh => new_row(Form::Storing, 0x23, 1, 0x00),
        Op::Sw => new_row(Form::Storing, 0x23, 2, 0x00),
        Op::Sd => new_row(Form::Storing, 0x23, 3, 0x00),
        Op::Addi => new_row(Form::Immediate, 0x13, 0, 0x00),
        Op::Slti => new_row(Form::Immediate, 0x13, 2, 0x00),
        Op::Sltiu => new_row(Form::Immediate, 0x13, 3, 0x00),
        Op::Xori => new_row(Form::Immediate, 0x13, 4, 0x00),
        Op::Ori => new_row(Form::Immediate, 0x13, 6, 0x00),
        Op::Andi => new_row(Form::Immediate, 0x13, 7, 0x00),
        Op::Slli => new_row(Form::Shift6, 0x13, 1, 0x00),
        Op::Srli => new_row(Form::Shift6, 0x13, 5, 0x00),
        Op::Srai => new_row(Form::Shift6, 0x13, 5, 0x10),
        Op::Add => new_row(Form::Register, 0x33, 0, 0x00),
        Op::Sll => new_row(Form::Register, 0x33, 1, 0x00),
        Op::Slt => new_row(Form::Register, 0x33, 2, 0x00),
        Op::Sltu => new_row(Form::Register, 0x33, 3, 0x00),
        Op::Xor => new_row(Form::Register, 0x33, 4, 0x00),
        Op::Srl => new_row(Form::Register, 0x33, 5, 0x00),
        Op::Or => new_row(Form::Register, 0x33, 6, 0x00),
        Op::And => new_row(Form::Register, 0x33, 7, 0x00),
        Op::Sub => new_row(Form::Register, 0x33, 0, 0x20),
        Op::Sra => new_row(Form::Register, 0x33, 5, 0x20),
        Op::Mul => new_row(Form::Register, 0x33, 0, 0x01),
        Op::Mulh => new_row(Form::Register, 0x33, 1, 0x01),
        Op::Mulhsu => new_row(Form::Register, 0x33, 2, 0x01),
        Op::Mulhu => new_row(Form::Register, 0x33, 3, 0x01),
        Op::Div => new_row(Form::Register, 0x33, 4, 0x01),
        Op::Divu => new_row(Form::Register, 0x33, 5, 0x01),
        Op::Rem => new_row(Form::Register, 0x33, 6, 0x01),
        Op::Remu => new_row(Form::Register, 0x33, 7, 0x01),
        Op::Addiw => new_row(Form::Immediate, 0x1b, 0, 0x00),
        Op::Slliw => new_row(Form::Shift5, 0x1b, 1, 0x00),
        Op::Srliw => new_row(Form::Shift5, 0x1b, 5, 0x00),
        Op::Sraiw => new_row(Form::Shift5, 0x1b, 5, 0x20),
        Op::Addw => new_row(Form::Register, 0x3b, 0, 0x00),
        Op::Sllw => new_row(Form::Register, 0x3b, 1, 0x00),
        Op::Srlw => new_row(Form::Register, 0x3b, 5, 0x00),
        Op::Subw => new_row(Form::Register, 0x3b, 0, 0x20),
        Op::Sraw => new_row(Form::Register, 0x3b, 5, 0x20),
        Op::Mulw => new_row(Form::Register, 0x3b, 0, 0x01),
        Op::Divw => new_row(Form::Register, 0x3b, 4, 0x01),
        Op::Divuw => new_row(Form::Register, 0x3b, 5, 0x01),
        Op::Remw => new_row(Form::Register, 0x3b, 6, 0x01),
        Op::Remuw => new_row(Form::Register, 0x3b, 7, 0x01),
        Op::Fence => new_row(Form::Fencing, 0x0f, 0, 0x00),
        Op::Ecall => new_row(Form::Whole, 0x73, 0, 0x00),
        Op::Ebreak => new_row(Form::Whole, 0x73, 0, 0x01),
        Op::LrW => new_row(Form::Reserving, 0x2f, 2, 0x02),
        Op::ScW => new_row(Form::Atomic, 0x2f, 2, 0x03),
        Op::AmoswapW => new_row(Form::Atomic, 0x2f, 2, 0x01),
        Op::AmoaddW => new_row(Form::Atomic, 0x2f, 2, 0x00),
        Op::AmoxorW => new_row(Form::Atomic, 0x2f, 2, 0x04),
        Op::AmoandW => new_row(Form::Atomic, 0x2f, 2, 0x0c),
        Op::AmoorW => new_row(Form::Atomic, 0x2f, 2, 0x08),
        Op::AmominW => new_row(Form::Atomic, 0x2f, 2, 0x10),
        Op::AmomaxW => new_row(Form::Atomic, 0x2f, 2, 0x14),
        Op::AmominuW => new_row(Form::Atomic, 0x2f, 2, 0x18),
        Op::AmomaxuW => new_row(Form::Atomic, 0x2f, 2, 0x1c),
        Op::LrD => new_row(Form::Reserving, 0x2f, 3, 0x02),
        Op::ScD => new_row(Form::Atomic, 0x2f, 3, 0x03),
        Op::AmoswapD => new_row(Form::Atomic, 0x2f, 3, 0x01),
        Op::AmoaddD => new_row(Form::Atomic, 0x2f, 3, 0x00),
        Op::AmoxorD => new_row(Form::Atomic, 0x2f, 3, 0x04),
        Op::AmoandD => new_row(Form::Atomic, 0x2f, 3, 0x0c),
        Op::AmoorD => new_row(Form::Atomic, 0x2f, 3, 0x08),
        Op::AmominD => new_row(Form::Atomic, 0x2f, 3, 0x10),
        Op::AmomaxD => new_row(Form::Atomic, 0x2f, 3, 0x14),
        Op::AmominuD => new_row(Form::Atomic, 0x2f, 3, 0x18),
        Op::AmomaxuD => new_row(Form::Atomic, 0x2f, 3, 0x1c),
    }
}
