// SPDX-License-Identifier: Apache-2.0
//! Registers and immediates.
ghost use Rattle.std.specs.Prelude.{◌≡◌, IsTrue, slice_index};
ghost use Rattle.rv_table.specs.Arithmetic.{is_arithmetic};
ghost use Rattle.rv_table.specs.Operands.{both_ra as both_ra_of, computed as computed_of, is_register as is_register_of, plus_imm as plus_of, reads_ra as reads_ra_of};
ghost use Rattle.rv_operands.specs.Registers.{NamesRegisters};

use rv_alu::alu;
use rv_table::{Instr, Op};

/// An address and an immediate, modulo 2^64.
#[inline(always)]
pub fn plus_imm(address: u64, imm: i64) -> u64
    ensures { result ≡ plus_of address imm }
{
    address.wrapping_add(imm.cast_unsigned())
}

/// Whether an instruction of two registers reads ra.
#[inline(always)]
pub fn both_ra(instr: &Instr) -> bool
    ensures { result ≡ both_ra_of instr.now }
{
    instr.rs1 == 1 || instr.rs2 == 1
}

/// Whether the second operand is rs2, and not the immediate.
#[inline(always)]
#[tactic(auto, unfolding(rv_table::specs::Operands::is_register, rv_table::specs::Instruction::row_of))]
fn is_register(op: Op) -> bool
    ensures { result ≡ is_register_of op }
{
    matches!(
        op,
        Op::Add
            | Op::Sll
            | Op::Slt
            | Op::Sltu
            | Op::Xor
            | Op::Srl
            | Op::Or
            | Op::And
            | Op::Sub
            | Op::Sra
            | Op::Mul
            | Op::Mulh
            | Op::Mulhsu
            | Op::Mulhu
            | Op::Div
            | Op::Divu
            | Op::Rem
            | Op::Remu
            | Op::Addw
            | Op::Sllw
            | Op::Srlw
            | Op::Subw
            | Op::Sraw
            | Op::Mulw
            | Op::Divw
            | Op::Divuw
            | Op::Remw
            | Op::Remuw
    )
}

/// Whether an arithmetic instruction reads ra.
#[inline(always)]
#[tactic(auto, unfolding(rv_table::specs::Operands::reads_ra))]
pub fn reads_ra(instr: &Instr) -> bool
    ensures { result ≡ reads_ra_of instr.now }
{
    instr.rs1 == 1 || is_register(instr.op) && instr.rs2 == 1
}

/// What an arithmetic instruction makes of the registers x0 to x31.
#[inline(always)]
#[tactic(auto, unfolding(rv_table::specs::Operands::computed))]
pub fn computed(instr: &Instr, regs: &[u64; 32]) -> u64
    requires registers { NamesRegisters instr.now }
    requires arithmetic { IsTrue (is_arithmetic instr.now.op) }
    ensures { result ≡ computed_of instr.now (slice_index regs.now instr.now.rs1) (slice_index regs.now instr.now.rs2) }
{
    let second = if is_register(instr.op) {
        regs[instr.rs2 as usize]
    } else {
        instr.imm.cast_unsigned()
    };
    alu(instr.op, regs[instr.rs1 as usize], second)
}
