// SPDX-License-Identifier: Apache-2.0
//! What a task does to a hart and to memory.
ghost use Rattle.std.specs.Prelude.{◌≡◌, ◌+◌, ◌<◌, ◌^◌, IfOk, OnErr};
ghost use Rattle.thread_step.specs.Doing.{Does};
ghost use Rattle.thread_step.specs.Task.{IsDoable, kind_of};

use crate::answers::trapped;
use crate::code::Code;
use crate::control::{
    branch_to, call, indirect_call, indirect_jump, jump, pass, set_number, untaken,
};
use crate::tasks::Task;
use plain_memory::Contents;
use sh_types::{NoMemory, Trap};
use thread_acts::{Did, Thread, atomics, computes, goes_back, loads, restores, saves, stores};

/// What the task at the hart's pair does to the hart and to memory, and what comes of it. Where memory is refused, which
/// only a save asks for, nothing has changed.
#[inline(always)]
pub fn does<M: Contents>(
    code: &Code,
    thread: &mut Thread,
    task: &Task,
    memory: &mut M,
) -> Result<Did, NoMemory>
    requires doable { IsDoable task.now }
    requires off { thread.old.at.off + 4 < 2 ^ 32 }
    ensures done { IfOk result (λ did. Does (M.regions memory.old) thread.old thread.new (M.contents memory.old) (M.contents memory.new) (kind_of code.now thread.old.at task.now) did) }
    ensures regions { M.regions memory.new ≡ M.regions memory.old }
    ensures err { OnErr result ((thread.new ≡ thread.old) × (M.contents memory.new ≡ M.contents memory.old)) }
{
    match *task {
        Task::Sets { rd, value } => Ok(set_number(thread, rd, value)),
        Task::Computes { instr } => Ok(computes(thread, instr)),
        Task::Passes => Ok(pass(thread)),
        Task::Loads { instr } => Ok(loads(thread, instr, memory)),
        Task::Stores { instr } => Ok(stores(thread, instr, memory)),
        Task::Atomics { instr } => Ok(atomics(thread, instr, memory)),
        Task::Saves { imm } => saves(thread, imm, memory),
        Task::Restores { imm } => Ok(restores(thread, imm, memory)),
        Task::CallsTo { func } => Ok(call(thread, func)),
        Task::JumpsTo { func, off } => Ok(jump(thread, func, off)),
        Task::Branches { instr, off } => Ok(branch_to(thread, instr, off)),
        Task::Untaken { instr, .. } => Ok(untaken(thread, instr)),
        Task::CallsThrough { rs1, imm } => Ok(indirect_call(code, thread, rs1, imm)),
        Task::JumpsThrough { rs1, imm } => Ok(indirect_jump(code, thread, rs1, imm)),
        Task::GoesBack { .. } => Ok(goes_back(thread)),
        Task::Asks => Ok(Did::Call),
        Task::Breaks => Ok(trapped(Trap::Breakpoint)),
        Task::Illegal => Ok(trapped(Trap::Illegal)),
    }
}
