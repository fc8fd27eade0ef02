// SPDX-License-Identifier: Apache-2.0
//! The task of a word, by its class.
ghost use Rattle.std.specs.Prelude.{◌≡◌, ◌<◌, slice_index};
ghost use Rattle.rv_operands.specs.Registers.{NamesRegisters};
ghost use Rattle.sh_machines.specs.Kind.{Branches, site_kind, stop_kind};
ghost use Rattle.sh_types.specs.Image.{site_at, sizes_of};
ghost use Rattle.sh_types.specs.Place.{pair};
ghost use Rattle.sh_types.specs.declared.code.Image.{Image};
ghost use Rattle.sh_types.specs.declared.code.Pair.{Pair};
ghost use Rattle.thread_step.specs.Numbered.{IsNumbered};
ghost use Rattle.thread_step.specs.Task.{IsDoable, IsTask, kind_of};

use crate::frames::framed;
use crate::literals::literal_at;
use crate::reading::{instr_at, row, site};
use crate::tasks::Task;
use rv_table::{Instr, Op};
use sh_types::{Image, Items, Pair, Site};

/// A word of a branch's class. One whose mnemonic compares nothing is never taken; no path comes to such a word.
#[tactic(auto, unfolding(rv_table::specs::Instruction::row_of))]
fn branch(instr: Instr, off: u32) -> Task
    requires { NamesRegisters instr }
    ensures kind { (image : Image) (p : Pair) → kind_of image p result ≡ Branches instr (pair p.func off) }
    ensures doable { IsDoable result }
{
    match instr.op {
        Op::Beq | Op::Bne | Op::Blt | Op::Bge | Op::Bltu | Op::Bgeu => {
            Task::Branches { instr, off }
        }
        _ => Task::Untaken { instr, off },
    }
}

/// A breakpoint, or no instruction.
fn stop(instr: Instr) -> Task
    ensures kind { (image : Image) (p : Pair) → kind_of image p result ≡ stop_kind instr }
    ensures doable { IsDoable result }
{
    match instr.op {
        Op::Ebreak => Task::Breaks,
        _ => Task::Illegal,
    }
}

/// An instruction of this class at a word of a function; `numbers` are those that words have as literals.
fn by_class(image: &Image, numbers: &[Items<u32>], at: Pair, site: Site, instr: Instr) -> Task
    requires numbered { IsNumbered image.now numbers.now }
    requires registers { NamesRegisters instr }
    requires inside { at.off < slice_index (sizes_of image.now) at.func }
    ensures kind { kind_of image.now at result ≡ site_kind image.now at site instr }
    ensures doable { IsDoable result }
{
    match site {
        Site::Plain => framed(row(image, at), instr),
        Site::Literal => Task::Sets {
            rd: instr.rd,
            value: literal_at(image, numbers, at),
        },
        Site::InnerJump { to } => Task::JumpsTo {
            func: at.func,
            off: to,
        },
        Site::InnerBranch { to } => branch(instr, to),
        Site::DirectCall { func } => Task::CallsTo { func },
        Site::DirectTail { func } => Task::JumpsTo { func, off: 0 },
        Site::IndirectCall => Task::CallsThrough {
            rs1: instr.rs1,
            imm: instr.imm,
        },
        Site::IndirectTail => Task::JumpsThrough {
            rs1: instr.rs1,
            imm: instr.imm,
        },
        Site::ReturnLike => Task::GoesBack { imm: instr.imm },
        Site::Environment => Task::Asks,
        Site::Stop => stop(instr),
        Site::Bad { .. } => Task::Illegal,
    }
}

/// The task of an instruction at a word of a function; `numbers` are those that words have as literals.
pub fn task_of(image: &Image, numbers: &[Items<u32>], at: Pair, instr: Instr) -> Task
    requires numbered { IsNumbered image.now numbers.now }
    requires registers { NamesRegisters instr }
    requires inside { at.off < slice_index (sizes_of image.now) at.func }
    ensures kind { kind_of image.now at result ≡ site_kind image.now at (site_at image.now at) instr }
    ensures doable { IsDoable result }
{
    by_class(image, numbers, at, site(image, at), instr)
}

/// The task of a word of a function, which need be no instruction; `numbers` are those that words have as literals.
pub fn task_at(image: &Image, numbers: &[Items<u32>], at: Pair) -> Task
    requires numbered { IsNumbered image.now numbers.now }
    requires inside { at.off < slice_index (sizes_of image.now) at.func }
    ensures { IsTask image.now at result }
{
    match instr_at(image, at) {
        Some(instr) => task_of(image, numbers, at, instr),
        None => Task::Illegal,
    }
}
