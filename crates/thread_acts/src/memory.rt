// SPDX-License-Identifier: Apache-2.0
//! Loads and stores.
ghost use Rattle.std.specs.Prelude.{◌≡◌, ◌+◌, ◌^◌, ◌<◌, IsTrue};
ghost use Rattle.rv_table.specs.Arithmetic.{is_load};
ghost use Rattle.rv_operands.specs.Registers.{NamesRegisters};
ghost use Rattle.sh_machines.specs.Kind.{Loads, Stores};
ghost use Rattle.sh_machines.specs.Need.{answered};
ghost use Rattle.sh_machines.specs.Unmoved.{thread_does};
ghost use Rattle.thread_acts.specs.Done.{IsDone, meant};

use crate::answers::{Did, refused, stored, went};
use crate::registers::{advance, leaks, set};
use crate::threads::Thread;
use plain_memory::Contents;
use rv_alu::extend;
use rv_operands::{both_ra, plus_imm, width};
use rv_table::Instr;
use sh_types::Trap;

/// A load; its address may not be made of a return address, nor its word be one.
#[inline(always)]
pub fn loads<M: Contents>(thread: &mut Thread, instr: Instr, memory: &M) -> Did
    requires registers { NamesRegisters instr }
    requires off { thread.old.at.off + 4 < 2 ^ 32 }
    requires load { IsTrue (is_load instr.op) }
    ensures { IsDone (answered (thread_does (M.regions memory.now) (meant thread.old) (Loads instr)) (M.contents memory.now)) thread.old thread.new (M.contents memory.now) (M.contents memory.now) result }
{
    if leaks(thread, instr.rs1 == 1) {
        return Did::Leak;
    }
    let address = plus_imm(thread.regs[instr.rs1 as usize], instr.imm);
    match memory.load(address, width(instr.op)) {
        Ok(raw) => {
            set(thread, instr.rd, extend(instr.op, raw));
            went()
        }
        Err(fault) => refused(fault, Trap::Load, address),
    }
}

/// A store; neither its address nor its number may be made of a return address, nor its word be one.
#[inline(always)]
pub fn stores<M: Contents>(thread: &mut Thread, instr: Instr, memory: &mut M) -> Did
    requires registers { NamesRegisters instr }
    requires off { thread.old.at.off + 4 < 2 ^ 32 }
    ensures done { IsDone (answered (thread_does (M.regions memory.old) (meant thread.old) (Stores instr)) (M.contents memory.old)) thread.old thread.new (M.contents memory.old) (M.contents memory.new) result }
    ensures regions { M.regions memory.new ≡ M.regions memory.old }
{
    if leaks(thread, both_ra(&instr)) {
        return Did::Leak;
    }
    let address = plus_imm(thread.regs[instr.rs1 as usize], instr.imm);
    let length = width(instr.op);
    match memory.store(address, length, thread.regs[instr.rs2 as usize]) {
        Ok(()) => {
            advance(thread);
            stored(address, length)
        }
        Err(fault) => refused(fault, Trap::Store, address),
    }
}
