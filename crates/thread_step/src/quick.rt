// SPDX-License-Identifier: Apache-2.0
//! Tasks that store nothing, each with a plain answer: whether it is done. Where it is not, nothing has changed, and the
//! instruction is done the long way, which says what comes of it.
ghost use Rattle.std.specs.Prelude.{◌≡◌, ◌+◌, ◌<◌, ◌^◌, ℕ, List, IsTrue, None};
ghost use Rattle.std.specs.Bool.{OnFalse, OnTrue};
ghost use Rattle.rv_operands.specs.Registers.{NamesRegisters};
ghost use Rattle.rv_table.specs.Arithmetic.{is_arithmetic, is_branch, is_load};
ghost use Rattle.sh_machines.specs.Kind.{Branches, Computes, Loads};
ghost use Rattle.sh_machines.specs.Unmoved.{Content};
ghost use Rattle.sh_types.specs.Place.{pair};
ghost use Rattle.sh_types.specs.declared.code.Region.{Region};
ghost use Rattle.thread_step.specs.Doing.{Does, DoesAlone, Stops, is_quick};
ghost use Rattle.thread_step.specs.Task.{IsDoable, kind_of};

use crate::code::Code;
use crate::control::branch_to;
use crate::tasks::Task;
use plain_memory::Contents;
use rv_table::Instr;
use sh_types::Pair;
use thread_acts::{Did, Thread, calls_to, computes, jumps_to, loads, sets};

/// Whether the instruction is done and stored nothing.
#[inline(always)]
fn is_quiet(did: Did) -> bool
    ensures yes { OnTrue result (did ≡ Did.Went None) }
    ensures no { OnFalse result (did ≡ Did.Went None → ⊥) }
{
    match did {
        Did::Went { stored } => stored.is_none(),
        _ => false,
    }
}

/// An arithmetic instruction.
#[inline(always)]
fn quick_computes(thread: &mut Thread, instr: Instr) -> bool
    requires registers { NamesRegisters instr }
    requires off { thread.old.at.off + 4 < 2 ^ 32 }
    requires arithmetic { IsTrue (is_arithmetic instr.op) }
    ensures went { OnTrue result (DoesAlone thread.old thread.new (Computes instr) (Did.Went None)) }
    ensures stays { OnFalse result (thread.new ≡ thread.old) }
    ensures stops { OnFalse result ((regions : List Region) (u : ℕ → Content) → Stops regions thread.old u (Computes instr)) }
{
    is_quiet(computes(thread, instr))
}

/// A branch to an offset of its function.
#[inline(always)]
fn quick_branches(thread: &mut Thread, instr: Instr, off: u32) -> bool
    requires registers { NamesRegisters instr }
    requires off { thread.old.at.off + 4 < 2 ^ 32 }
    requires branch { IsTrue (is_branch instr.op) }
    ensures went { OnTrue result (DoesAlone thread.old thread.new (Branches instr (pair thread.old.at.func off)) (Did.Went None)) }
    ensures stays { OnFalse result (thread.new ≡ thread.old) }
    ensures stops { OnFalse result ((regions : List Region) (u : ℕ → Content) → Stops regions thread.old u (Branches instr (pair thread.old.at.func off))) }
{
    is_quiet(branch_to(thread, instr, off))
}

/// A load.
#[inline(always)]
fn quick_loads<M: Contents>(thread: &mut Thread, instr: Instr, memory: &M) -> bool
    requires registers { NamesRegisters instr }
    requires off { thread.old.at.off + 4 < 2 ^ 32 }
    requires load { IsTrue (is_load instr.op) }
    ensures went { OnTrue result (Does (M.regions memory.now) thread.old thread.new (M.contents memory.now) (M.contents memory.now) (Loads instr) (Did.Went None)) }
    ensures stays { OnFalse result (thread.new ≡ thread.old) }
    ensures stops { OnFalse result (Stops (M.regions memory.now) thread.old (M.contents memory.now) (Loads instr)) }
{
    is_quiet(loads(thread, instr, memory))
}

/// What the task at the hart's pair does to the hart, if it is one that stores nothing: true where it is done, and else
/// nothing has changed.
#[inline(always)]
pub fn quick<M: Contents>(code: &Code, thread: &mut Thread, task: &Task, memory: &M) -> bool
    requires doable { IsDoable task.now }
    requires off { thread.old.at.off + 4 < 2 ^ 32 }
    ensures went { OnTrue result (Does (M.regions memory.now) thread.old thread.new (M.contents memory.now) (M.contents memory.now) (kind_of code.now thread.old.at task.now) (Did.Went None)) }
    ensures stays { OnFalse result (thread.new ≡ thread.old) }
    ensures stops { OnFalse result (IsTrue (is_quick (kind_of code.now thread.old.at task.now)) → Stops (M.regions memory.now) thread.old (M.contents memory.now) (kind_of code.now thread.old.at task.now)) }
{
    let _code = code;
    match *task {
        Task::Computes { instr } => quick_computes(thread, instr),
        Task::Loads { instr } => quick_loads(thread, instr, memory),
        Task::Branches { instr, off } => quick_branches(thread, instr, off),
        Task::Sets { rd, value } => {
            sets(thread, rd, value);
            true
        }
        Task::JumpsTo { func, off } => {
            jumps_to(thread, Pair { func, off });
            true
        }
        Task::CallsTo { func } => {
            calls_to(thread, Pair { func, off: 0 });
            true
        }
        _ => false,
    }
}
