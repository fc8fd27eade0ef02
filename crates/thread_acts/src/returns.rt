// SPDX-License-Identifier: Apache-2.0
//! Return addresses: how they are saved, taken back and gone to (RISC-V psABI, "Integer Calling Convention": ra is x1,
//! sp is x2).
ghost use Rattle.std.specs.Prelude.{◌≡◌, ℕ, ℤ, ◌+◌, ◌^◌, ◌<◌, IfOk, List, OnErr};
ghost use Rattle.sh_types.specs.declared.code.Region.{Region};
ghost use Rattle.sh_types.specs.declared.runs.Trap.TheVariants as trap;
ghost use Rattle.sh_machines.specs.Kind.{GoesBack, Restores, Saves};
ghost use Rattle.sh_machines.specs.Need.{answered};
ghost use Rattle.sh_machines.specs.Unmoved.{Content, thread_does};
ghost use Rattle.thread_acts.specs.Done.{IsDone, meant};

use crate::answers::{Did, refused, stored, went};
use crate::registers::advance;
use crate::threads::Thread;
use plain_memory::{Contents, SaveFault};
use rv_operands::plus_imm;
use sh_types::{CodeRef, NoMemory, Trap};

/// The trap of a save or a return where ra holds a number.
fn unmarked() -> Did
    ensures { result ≡ Did.Trapped trap.Illegal 0 }
{
    Did::Trapped {
        kind: Trap::Illegal,
        value: 0,
    }
}

/// To the return address in ra, or to the hart's end where that is the root.
pub fn goes_back(thread: &mut Thread) -> Did
    ensures { (regions : List Region) (u : ℕ → Content) (imm : ℤ) → IsDone (answered (thread_does regions (meant thread.old) (GoesBack imm)) u) thread.old thread.new u u result }
{
    match thread.ra {
        None => unmarked(),
        Some(CodeRef::Root) => Did::HartEnd,
        Some(CodeRef::At(pair)) => {
            thread.at = pair;
            went()
        }
    }
}

/// A save: a word on the stack becomes a return word of the hart, which leads where ra does.
pub fn saves<M: Contents>(thread: &mut Thread, imm: i64, memory: &mut M) -> Result<Did, NoMemory>
    requires off { thread.old.at.off + 4 < 2 ^ 32 }
    ensures done { IfOk result (λ did. IsDone (answered (thread_does (M.regions memory.old) (meant thread.old) (Saves imm)) (M.contents memory.old)) thread.old thread.new (M.contents memory.old) (M.contents memory.new) did) }
    ensures regions { M.regions memory.new ≡ M.regions memory.old }
    ensures err { OnErr result ((thread.new ≡ thread.old) × (M.contents memory.new ≡ M.contents memory.old)) }
{
    let Some(to) = thread.ra else {
        return Ok(unmarked());
    };
    let address = plus_imm(thread.regs[2], imm);
    match memory.save(address, thread.number, to) {
        Ok(()) => {
            advance(thread);
            Ok(stored(address, 8))
        }
        Err(SaveFault::NoMemory) => Err(NoMemory),
        Err(SaveFault::Access { fault }) => Ok(refused(fault, Trap::Store, address)),
    }
}

/// A restore: where the hart's return word leads goes to ra, and the word is zero afterwards.
pub fn restores<M: Contents>(thread: &mut Thread, imm: i64, memory: &mut M) -> Did
    requires off { thread.old.at.off + 4 < 2 ^ 32 }
    ensures done { IsDone (answered (thread_does (M.regions memory.old) (meant thread.old) (Restores imm)) (M.contents memory.old)) thread.old thread.new (M.contents memory.old) (M.contents memory.new) result }
    ensures regions { M.regions memory.new ≡ M.regions memory.old }
{
    let address = plus_imm(thread.regs[2], imm);
    match memory.restore(address, thread.number) {
        Ok(to) => {
            thread.ra = Some(to);
            advance(thread);
            went()
        }
        Err(fault) => refused(fault, Trap::Load, address),
    }
}
