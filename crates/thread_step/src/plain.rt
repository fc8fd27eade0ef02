// SPDX-License-Identifier: Apache-2.0
//! The tasks of instructions that go by their mnemonic alone: arithmetic, loads, stores and the like.
ghost use Rattle.std.specs.Prelude.{◌≡◌, ◌==◌, IsTrue};
ghost use Rattle.rv_operands.specs.Registers.{NamesRegisters};
ghost use Rattle.rv_table.specs.Arithmetic.{is_arithmetic};
ghost use Rattle.sh_machines.specs.Kind.{opcode_of, plain_kind};
ghost use Rattle.sh_types.specs.declared.code.Image.{Image};
ghost use Rattle.sh_types.specs.declared.code.Pair.{Pair};
ghost use Rattle.thread_step.specs.Task.{IsDoable, kind_of};

use crate::tasks::Task;
use rv_table::{Instr, Op};

/// Whether the mnemonic is of an atomic: LR, SC or one that reads, computes and writes.
#[tactic(auto, unfolding(rv_table::specs::Instruction::row_of))]
fn is_atomic(op: Op) -> bool
    ensures { result ≡ (opcode_of op == 0x2f) }
{
    matches!(
        op,
        Op::LrW
            | Op::ScW
            | Op::AmoswapW
            | Op::AmoaddW
            | Op::AmoxorW
            | Op::AmoandW
            | Op::AmoorW
            | Op::AmominW
            | Op::AmomaxW
            | Op::AmominuW
            | Op::AmomaxuW
            | Op::LrD
            | Op::ScD
            | Op::AmoswapD
            | Op::AmoaddD
            | Op::AmoxorD
            | Op::AmoandD
            | Op::AmoorD
            | Op::AmominD
            | Op::AmomaxD
            | Op::AmominuD
            | Op::AmomaxuD
    )
}

/// An instruction that computes.
#[tactic(auto, using(crate::proofs::Grouping::computes_kind))]
fn computing(instr: Instr) -> Task
    requires registers { NamesRegisters instr }
    requires arithmetic { IsTrue (is_arithmetic instr.op) }
    ensures kind { (image : Image) (p : Pair) → kind_of image p result ≡ plain_kind instr }
    ensures doable { IsDoable result }
{
    Task::Computes { instr }
}

/// An atomic.
#[tactic(auto, using(crate::proofs::Grouping::atomics_kind))]
fn atomic(instr: Instr) -> Task
    requires registers { NamesRegisters instr }
    requires atomic { IsTrue (opcode_of instr.op == 0x2f) }
    ensures kind { (image : Image) (p : Pair) → kind_of image p result ≡ plain_kind instr }
    ensures doable { IsDoable result }
{
    Task::Atomics { instr }
}

/// An instruction that goes by its mnemonic alone.
#[tactic(auto, unfolding(sh_machines::specs::Kind::plain_kind, rv_table::specs::Instruction::row_of))]
pub fn plain(instr: Instr) -> Task
    requires { NamesRegisters instr }
    ensures kind { (image : Image) (p : Pair) → kind_of image p result ≡ plain_kind instr }
    ensures doable { IsDoable result }
{
    match instr.op {
        Op::Lui => Task::Sets {
            rd: instr.rd,
            value: instr.imm.cast_unsigned(),
        },
        Op::Fence => Task::Passes,
        Op::Lb | Op::Lh | Op::Lw | Op::Ld | Op::Lbu | Op::Lhu | Op::Lwu => Task::Loads { instr },
        Op::Sb | Op::Sh | Op::Sw | Op::Sd => Task::Stores { instr },
        Op::Auipc
        | Op::Jal
        | Op::Jalr
        | Op::Beq
        | Op::Bne
        | Op::Blt
        | Op::Bge
        | Op::Bltu
        | Op::Bgeu
        | Op::Ecall
        | Op::Ebreak => Task::Illegal,
        _ if is_atomic(instr.op) => atomic(instr),
        _ => computing(instr),
    }
}
