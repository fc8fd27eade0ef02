// SPDX-License-Identifier: Apache-2.0
//! Instructions that compute.
ghost use Rattle.std.specs.Prelude.{ℕ, ◌+◌, ◌^◌, ◌<◌, IsTrue, List};
ghost use Rattle.rv_table.specs.Arithmetic.{is_arithmetic};
ghost use Rattle.rv_operands.specs.Registers.{NamesRegisters};
ghost use Rattle.sh_types.specs.declared.code.Region.{Region};
ghost use Rattle.sh_machines.specs.Kind.{Computes};
ghost use Rattle.sh_machines.specs.Need.{answered};
ghost use Rattle.sh_machines.specs.Unmoved.{Content, thread_does};
ghost use Rattle.thread_acts.specs.Done.{IsDone, meant};

use crate::answers::{Did, went};
use crate::registers::{leaks, set};
use crate::threads::Thread;
use rv_operands::{computed, reads_ra};
use rv_table::Instr;

/// An arithmetic instruction; it may not read a return address.
#[inline(always)]
pub fn computes(thread: &mut Thread, instr: Instr) -> Did
    requires registers { NamesRegisters instr }
    requires off { thread.old.at.off + 4 < 2 ^ 32 }
    requires arithmetic { IsTrue (is_arithmetic instr.op) }
    ensures { (regions : List Region) (u : ℕ → Content) → IsDone (answered (thread_does regions (meant thread.old) (Computes instr)) u) thread.old thread.new u u result }
{
    if leaks(thread, reads_ra(&instr)) {
        return Did::Leak;
    }
    let value = computed(&instr, &thread.regs);
    set(thread, instr.rd, value);
    went()
}
