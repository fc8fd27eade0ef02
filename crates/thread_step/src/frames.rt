// SPDX-License-Identifier: Apache-2.0
//! The tasks of words of the class Plain. By the frame's state `sd ra,k(sp)` can be a save and `ld ra,k(sp)` a restore
//! (RISC-V psABI, "Integer Calling Convention": ra is x1, sp is x2).
ghost use Rattle.std.specs.Prelude.{◌≡◌, true};
ghost use Rattle.rv_operands.specs.Registers.{NamesRegisters};
ghost use Rattle.sh_machines.specs.Copy.{is_slot_at as is_slot_at_of};
ghost use Rattle.sh_machines.specs.Kind.{framed_kind};
ghost use Rattle.sh_types.specs.declared.code.Image.{Image};
ghost use Rattle.sh_types.specs.declared.code.Pair.{Pair};
ghost use Rattle.thread_step.specs.Framed.{is_in_ra as is_in_ra_of, is_saved_at as is_saved_at_of, loads_ra as loads_ra_of, stores_ra as stores_ra_of};
ghost use Rattle.thread_step.specs.Task.{IsDoable, kind_of};

use crate::plain::plain;
use crate::tasks::Task;
use rv_table::{Instr, Op};
use sh_types::{FrameState, RaPlace};

/// Whether the instruction is `sd ra,k(sp)`.
fn stores_ra(instr: Instr) -> bool
    ensures { result ≡ stores_ra_of instr }
{
    matches!(instr.op, Op::Sd) && instr.rs1 == 2 && instr.rs2 == 1
}

/// Whether the instruction is `ld ra,k(sp)`.
fn loads_ra(instr: Instr) -> bool
    ensures { result ≡ loads_ra_of instr }
{
    matches!(instr.op, Op::Ld) && instr.rs1 == 2 && instr.rd == 1
}

/// Whether a frame in this state has its return address in ra.
fn is_in_ra(row: Option<FrameState>) -> bool
    ensures { result ≡ is_in_ra_of row }
{
    match row {
        Some(state) => matches!(state.ra, RaPlace::Reg),
        None => false,
    }
}

/// Whether the word so far above sp is the slot of a frame of this depth.
fn is_slot_at(above: i64, depth: u32, ra: RaPlace) -> bool
    ensures { result ≡ is_slot_at_of above depth ra }
{
    match ra {
        RaPlace::Slot { below } => {
            u64::from(below).wrapping_add(above.cast_unsigned()) == u64::from(depth)
        }
        RaPlace::Reg | RaPlace::Dropped => false,
    }
}

/// Whether a frame in this state has its return address in the word so far above sp.
fn is_saved_at(above: i64, row: Option<FrameState>) -> bool
    ensures { result ≡ is_saved_at_of above row }
{
    match row {
        Some(state) => is_slot_at(above, state.depth, state.ra),
        None => false,
    }
}

/// `sd ra,k(sp)`: a save where the return address is in ra, else a store.
fn save_or_store(row: Option<FrameState>, instr: Instr) -> Task
    requires registers { NamesRegisters instr }
    requires instr { stores_ra_of instr ≡ true }
    ensures kind { (image : Image) (p : Pair) → kind_of image p result ≡ framed_kind row instr }
    ensures doable { IsDoable result }
{
    if is_in_ra(row) {
        Task::Saves { imm: instr.imm }
    } else {
        Task::Stores { instr }
    }
}

/// `ld ra,k(sp)`: a restore of the word where the return address was saved, else a load.
#[tactic(auto, using(crate::proofs::Framing::is_loading))]
fn restore_or_load(row: Option<FrameState>, instr: Instr) -> Task
    requires registers { NamesRegisters instr }
    requires instr { loads_ra_of instr ≡ true }
    ensures kind { (image : Image) (p : Pair) → kind_of image p result ≡ framed_kind row instr }
    ensures doable { IsDoable result }
{
    if is_saved_at(instr.imm, row) {
        Task::Restores { imm: instr.imm }
    } else {
        Task::Loads { instr }
    }
}

/// A word of the class Plain, in a frame of this state.
pub fn framed(row: Option<FrameState>, instr: Instr) -> Task
    requires { NamesRegisters instr }
    ensures kind { (image : Image) (p : Pair) → kind_of image p result ≡ framed_kind row instr }
    ensures doable { IsDoable result }
{
    if stores_ra(instr) {
        save_or_store(row, instr)
    } else if loads_ra(instr) {
        restore_or_load(row, instr)
    } else {
        plain(instr)
    }
}
