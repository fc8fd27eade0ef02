// SPDX-License-Identifier: Apache-2.0
//! The code of an image, as an interpreter looks it up.
ghost use Rattle.std.specs.Prelude.{◌≡◌, ◌+◌, ◌<◌, ◌^◌, ◌%◌, ◌==◌, IfOk, IfSome, slice_index};
ghost use Rattle.std.specs.Option.{IfNone};
ghost use Rattle.rv_operands.specs.Registers.{NamesRegisters};
ghost use Rattle.rv_table.specs.Decoding.{decoded};
ghost use Rattle.sh_machines.specs.Fine.{IsFine};
ghost use Rattle.sh_machines.specs.Kind.{kind_at, site_kind};
ghost use Rattle.sh_machines.specs.Tokens as tokens;
ghost use Rattle.sh_types.specs.Image.{site_at, sizes_of, word_at};
ghost use Rattle.sh_types.specs.Sized.{IsSized};
ghost use Rattle.thread_step.specs.Numbered.{IsWorded};
ghost use Rattle.thread_step.specs.Task.{IsDoable, kind_of};

use crate::listing::{listed, listed_tasks};
use crate::literals::literal_numbers;
use crate::reading::{instr_at, size};
use crate::sites::task_of;
use crate::tasks::Task;
use rv_table::Instr;
use sh_types::{Image, Items, NoMemory, Pair};
use std::alloc::Global;
use std::marker::Model;
use token_ways::{call_way, tail_way};

/// The code of an image. Contracts see it as the image. `numbers` has for each word the number that it has as a literal,
/// and `tasks` what it is to do, so that nothing of this is found while the code runs.
#[derive(Debug, Drop)]
pub struct Code {
    image: Image,
    numbers: Items<Items<u32>>,
    tasks: Items<Items<Task>>,
}

impl Model for Code {
    ghost use Rattle.sh_types.specs.declared.code.Image.{Image};
    ghost use Rattle.thread_step.specs.Listed.{IsCode};

    ghost Value = { Image };

    ghost view = { λ c. c.image };

    ghost invariant = { λ c. IsCode c.image c.numbers c.tasks };
}

impl Code {
    /// The code of an image. It counts the literals and finds what each word is to do, once. Err only where memory is
    /// refused.
    #[tactic(auto, using(crate::proofs::Lookups::numbered_is, crate::proofs::Lookups::code_is))]
    pub fn new(alloc: Global, image: Image) -> Result<Code, NoMemory>
        requires fine { IsFine image }
        requires sized { IsSized (sizes_of image) }
        requires worded { IsWorded image }
        ensures { IfOk result (λ code. code ≡ image) }
    {
        let numbers = literal_numbers(alloc, &image)?;
        let tasks = listed_tasks(alloc, &image, numbers.as_slice())?;
        Ok(Code {
            image,
            numbers,
            tasks,
        })
    }

    /// The image.
    pub fn image(&self) -> &Image
        ensures { result.now ≡ self.now }
    {
        &self.image
    }

    /// The task of the word at a pair; None where no word begins.
    #[inline(always)]
    pub(crate) fn listed_at(&self, at: Pair) -> Option<&Task>
        ensures kind { IfSome result (λ task. kind_of self.now at task.now ≡ kind_at self.now at) }
        ensures doable { IfSome result (λ task. IsDoable task.now) }
        ensures next { IfSome result (λ _. at.off + 4 < 2 ^ 32) }
        ensures none { IfNone result (at.off % 4 ≡ 0 → at.off < slice_index (sizes_of self.now) at.func → ⊥) }
    {
        listed(self.tasks.as_slice(), at)
    }

    /// The instruction of the word at a pair; None where no word is, or one that is no instruction's.
    pub(crate) fn instr_at(&self, at: Pair) -> Option<Instr>
        ensures is { result ≡ decoded (word_at self.now at) }
        ensures registers { IfSome result (λ instr. NamesRegisters instr) }
        ensures inside { IfSome result (λ _. at.off < slice_index (sizes_of self.now) at.func) }
        ensures next { IfSome result (λ _. at.off + 4 < 2 ^ 32) }
    {
        instr_at(&self.image, at)
    }

    /// The task of an instruction at a word of a function.
    pub(crate) fn task_of(&self, at: Pair, instr: Instr) -> Task
        requires registers { NamesRegisters instr }
        requires inside { at.off < slice_index (sizes_of self.now) at.func }
        ensures kind { kind_of self.now at result ≡ site_kind self.now at (site_at self.now at) instr }
        ensures doable { IsDoable result }
    {
        task_of(&self.image, self.numbers.as_slice(), at, instr)
    }

    /// Whether the pair is the one behind the last word of its function.
    pub(crate) fn is_end(&self, at: Pair) -> bool
        ensures { result ≡ (at.off == slice_index (sizes_of self.now) at.func) }
    {
        at.off == size(&self.image, at.func)
    }

    /// Where an indirect call goes by a number.
    pub(crate) fn call_way(&self, number: u64) -> Option<Pair>
        ensures { result ≡ tokens.call_way self.now.rows number }
    {
        call_way(self.image.rows.as_slice(), number)
    }

    /// Where an indirect jump of a function goes by a number.
    pub(crate) fn tail_way(&self, func: u32, number: u64) -> Option<Pair>
        ensures { result ≡ tokens.tail_way self.now.rows self.now.labels func number }
    {
        tail_way(
            self.image.rows.as_slice(),
            self.image.labels.as_slice(),
            func,
            number,
        )
    }
}
