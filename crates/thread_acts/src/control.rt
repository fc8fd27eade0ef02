// SPDX-License-Identifier: Apache-2.0
//! Branches, calls and jumps.
ghost use Rattle.std.specs.Prelude.{◌≡◌, ℕ, ℤ, ◌+◌, ◌^◌, ◌<◌, IsTrue, List, Option, None, slice_index};
ghost use Rattle.rv_table.specs.Arithmetic.{is_branch};
ghost use Rattle.rv_operands.specs.Registers.{NamesRegisters};
ghost use Rattle.sh_types.specs.declared.code.Pair.{Pair};
ghost use Rattle.sh_types.specs.declared.code.Region.{Region};
ghost use Rattle.sh_types.specs.declared.runs.Trap.TheVariants as trap;
ghost use Rattle.sh_machines.specs.Kind.{Branches, CallsTo, JumpsTo, CallsThrough, JumpsThrough};
ghost use Rattle.sh_machines.specs.Need.{answered};
ghost use Rattle.sh_machines.specs.Tokens.{jump_number};
ghost use Rattle.sh_machines.specs.Unmoved.{Content, thread_does};
ghost use Rattle.thread_acts.specs.Done.{IsDone, meant};

use crate::answers::{Did, went};
use crate::registers::{leaks, next};
use crate::threads::Thread;
use rv_alu::compare;
use rv_operands::both_ra;
use rv_table::Instr;
use sh_types::{CodeRef, Pair, Trap};

/// To a pair of the same function if the comparison holds, which may not read a return address.
#[inline(always)]
pub fn branches(thread: &mut Thread, instr: Instr, to: Pair) -> Did
    requires registers { NamesRegisters instr }
    requires off { thread.old.at.off + 4 < 2 ^ 32 }
    requires branch { IsTrue (is_branch instr.op) }
    ensures { (regions : List Region) (u : ℕ → Content) → IsDone (answered (thread_does regions (meant thread.old) (Branches instr to)) u) thread.old thread.new u u result }
{
    if leaks(thread, both_ra(&instr)) {
        return Did::Leak;
    }
    let first = thread.regs[instr.rs1 as usize];
    let second = thread.regs[instr.rs2 as usize];
    thread.at = if compare(instr.op, first, second) {
        to
    } else {
        next(thread.at)
    };
    went()
}

/// To a pair, with the pair of the next word in ra.
pub fn calls_to(thread: &mut Thread, to: Pair)
    requires off { thread.old.at.off + 4 < 2 ^ 32 }
    ensures { (regions : List Region) (u : ℕ → Content) → IsDone (answered (thread_does regions (meant thread.old) (CallsTo to)) u) thread.old thread.new u u (Did.Went None) }
{
    thread.ra = Some(CodeRef::At(next(thread.at)));
    thread.at = to;
}

/// To a pair.
#[inline(always)]
pub fn jumps_to(thread: &mut Thread, to: Pair)
    ensures { (regions : List Region) (u : ℕ → Content) → IsDone (answered (thread_does regions (meant thread.old) (JumpsTo to)) u) thread.old thread.new u u (Did.Went None) }
{
    thread.at = to;
}

/// The trap of an indirect call or jump by a number that leads nowhere.
fn nowhere(number: u64) -> Did
    ensures { result ≡ Did.Trapped trap.BadJump number }
{
    Did::Trapped {
        kind: Trap::BadJump,
        value: number,
    }
}

/// An indirect call: `number` is that of register `rs1` and an immediate, and `to` where it leads, if anywhere. The
/// register may not hold a return address.
pub fn calls_through(thread: &mut Thread, rs1: u8, number: u64, to: Option<Pair>) -> Did
    requires register { rs1 < 32 }
    requires off { thread.old.at.off + 4 < 2 ^ 32 }
    ensures { (regions : List Region) (u : ℕ → Content) (imm : ℤ) (way : ℕ → Option Pair) → number ≡ jump_number (slice_index thread.old.regs rs1) imm → to ≡ way number → IsDone (answered (thread_does regions (meant thread.old) (CallsThrough rs1 imm way)) u) thread.old thread.new u u result }
{
    if leaks(thread, rs1 == 1) {
        return Did::Leak;
    }
    match to {
        Some(start) => {
            calls_to(thread, start);
            went()
        }
        None => nowhere(number),
    }
}

/// An indirect jump; what it is given is as for an indirect call.
pub fn jumps_through(thread: &mut Thread, rs1: u8, number: u64, to: Option<Pair>) -> Did
    requires register { rs1 < 32 }
    ensures { (regions : List Region) (u : ℕ → Content) (imm : ℤ) (way : ℕ → Option Pair) → number ≡ jump_number (slice_index thread.old.regs rs1) imm → to ≡ way number → IsDone (answered (thread_does regions (meant thread.old) (JumpsThrough rs1 imm way)) u) thread.old thread.new u u result }
{
    if leaks(thread, rs1 == 1) {
        return Did::Leak;
    }
    match to {
        Some(target) => {
            jumps_to(thread, target);
            went()
        }
        None => nowhere(number),
    }
}
