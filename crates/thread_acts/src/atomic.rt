// SPDX-License-Identifier: Apache-2.0
//! Load-reserved, store-conditional and atomic memory operations (RISC-V Unprivileged ISA, "A" extension).
ghost use Rattle.std.specs.Prelude.{◌≡◌, ◌+◌, ◌^◌, ◌<◌, ◌==◌, ◌&&◌, IsTrue, true, false, slice_index};
ghost use Rattle.rv_table.specs.Arithmetic.{is_amo};
ghost use Rattle.rv_table.specs.Operands.{both_ra as both_ra_of, is_lr as is_lr_of, is_sc as is_sc_of, width_of};
ghost use Rattle.rv_operands.specs.Registers.{NamesRegisters};
ghost use Rattle.sh_machines.specs.Kind.{Atomics, opcode_of};
ghost use Rattle.sh_machines.specs.Need.{answered, is_held as is_held_of};
ghost use Rattle.sh_machines.specs.Unmoved.{is_return, thread_does};
ghost use Rattle.thread_acts.specs.Done.{IsDone, meant};

use crate::answers::{Did, refused, stored, went};
use crate::registers::{leaks, set};
use crate::threads::Thread;
use plain_memory::Contents;
use reservations::is_held;
use rv_alu::amo;
use rv_operands::{both_ra, taken, width};
use rv_table::{Instr, Op, Reservation};
use sh_types::Trap;

/// An atomic; it may not read a return address, nor its word be one.
#[tactic(auto, using(crate::proofs::Mnemonics::others_compute))]
pub fn atomics<M: Contents>(thread: &mut Thread, instr: Instr, memory: &mut M) -> Did
    requires registers { NamesRegisters instr }
    requires off { thread.old.at.off + 4 < 2 ^ 32 }
    requires atomic { IsTrue (opcode_of instr.op == 0x2f) }
    ensures done { IsDone (answered (thread_does (M.regions memory.old) (meant thread.old) (Atomics instr)) (M.contents memory.old)) thread.old thread.new (M.contents memory.old) (M.contents memory.new) result }
    ensures regions { M.regions memory.new ≡ M.regions memory.old }
{
    if leaks(thread, both_ra(&instr)) {
        return Did::Leak;
    }
    if is_reserving(instr.op) {
        return reserves(thread, instr, memory);
    }
    if is_conditional(instr.op) {
        return stores_if(thread, instr, memory);
    }
    exchanges(thread, instr, memory)
}

/// Whether the mnemonic is of a load-reserved.
fn is_reserving(op: Op) -> bool
    ensures { result ≡ is_lr_of op }
{
    matches!(op, Op::LrW | Op::LrD)
}

/// Whether the mnemonic is of a store-conditional.
fn is_conditional(op: Op) -> bool
    ensures { result ≡ is_sc_of op }
{
    matches!(op, Op::ScW | Op::ScD)
}

/// A load-reserved: a load that leaves a reservation of its bytes.
fn reserves<M: Contents>(thread: &mut Thread, instr: Instr, memory: &M) -> Did
    requires registers { NamesRegisters instr }
    requires off { thread.old.at.off + 4 < 2 ^ 32 }
    requires plain { (is_return thread.old.ra && both_ra_of instr) ≡ false }
    requires reserving { is_lr_of instr.op ≡ true }
    ensures { IsDone (answered (thread_does (M.regions memory.now) (meant thread.old) (Atomics instr)) (M.contents memory.now)) thread.old thread.new (M.contents memory.now) (M.contents memory.now) result }
{
    let address = thread.regs[instr.rs1 as usize];
    let width = width(instr.op);
    match memory.load(address, width) {
        Ok(raw) => {
            thread.reserved = Some(Reservation { address, width });
            set(thread, instr.rd, taken(instr.op, raw));
            went()
        }
        Err(fault) => refused(fault, Trap::Load, address),
    }
}

/// A store-conditional: it stores only where the reservation is of its bytes, and drops the reservation. Its bytes are
/// checked in both cases.
fn stores_if<M: Contents>(thread: &mut Thread, instr: Instr, memory: &mut M) -> Did
    requires registers { NamesRegisters instr }
    requires off { thread.old.at.off + 4 < 2 ^ 32 }
    requires plain { (is_return thread.old.ra && both_ra_of instr) ≡ false }
    requires not_reserving { is_lr_of instr.op ≡ false }
    requires conditional { is_sc_of instr.op ≡ true }
    ensures done { IsDone (answered (thread_does (M.regions memory.old) (meant thread.old) (Atomics instr)) (M.contents memory.old)) thread.old thread.new (M.contents memory.old) (M.contents memory.new) result }
    ensures regions { M.regions memory.new ≡ M.regions memory.old }
{
    let address = thread.regs[instr.rs1 as usize];
    let width = width(instr.op);
    if is_held(thread.reserved, address, width) {
        return succeeds(thread, instr, memory);
    }
    match memory.load_to_store(address, width) {
        Ok(_) => {
            thread.reserved = None;
            set(thread, instr.rd, 1);
            went()
        }
        Err(fault) => refused(fault, Trap::Store, address),
    }
}

/// A store-conditional whose reservation holds.
fn succeeds<M: Contents>(thread: &mut Thread, instr: Instr, memory: &mut M) -> Did
    requires registers { NamesRegisters instr }
    requires off { thread.old.at.off + 4 < 2 ^ 32 }
    requires plain { (is_return thread.old.ra && both_ra_of instr) ≡ false }
    requires not_reserving { is_lr_of instr.op ≡ false }
    requires conditional { is_sc_of instr.op ≡ true }
    requires held { is_held_of thread.old.reserved (slice_index thread.old.regs instr.rs1) (width_of instr.op) ≡ true }
    ensures done { IsDone (answered (thread_does (M.regions memory.old) (meant thread.old) (Atomics instr)) (M.contents memory.old)) thread.old thread.new (M.contents memory.old) (M.contents memory.new) result }
    ensures regions { M.regions memory.new ≡ M.regions memory.old }
{
    let address = thread.regs[instr.rs1 as usize];
    let width = width(instr.op);
    match memory.store(address, width, thread.regs[instr.rs2 as usize]) {
        Ok(()) => {
            thread.reserved = None;
            set(thread, instr.rd, 0);
            stored(address, width)
        }
        Err(fault) => refused(fault, Trap::Store, address),
    }
}

/// An atomic memory operation: the number at its place goes to a register, and what the operation makes of it is
/// stored. What can be loaded to be stored can be stored.
fn exchanges<M: Contents>(thread: &mut Thread, instr: Instr, memory: &mut M) -> Did
    requires registers { NamesRegisters instr }
    requires off { thread.old.at.off + 4 < 2 ^ 32 }
    requires plain { (is_return thread.old.ra && both_ra_of instr) ≡ false }
    requires not_reserving { is_lr_of instr.op ≡ false }
    requires not_conditional { is_sc_of instr.op ≡ false }
    requires operation { IsTrue (is_amo instr.op) }
    ensures done { IsDone (answered (thread_does (M.regions memory.old) (meant thread.old) (Atomics instr)) (M.contents memory.old)) thread.old thread.new (M.contents memory.old) (M.contents memory.new) result }
    ensures regions { M.regions memory.new ≡ M.regions memory.old }
{
    let address = thread.regs[instr.rs1 as usize];
    let width = width(instr.op);
    match memory.load_to_store(address, width) {
        Ok(raw) => {
            let value = amo(instr.op, raw, thread.regs[instr.rs2 as usize]);
            match memory.store(address, width, value) {
                Ok(()) => {
                    set(thread, instr.rd, taken(instr.op, raw));
                    stored(address, width)
                }
                Err(_) => unreachable!(),
            }
        }
        Err(fault) => refused(fault, Trap::Store, address),
    }
}
