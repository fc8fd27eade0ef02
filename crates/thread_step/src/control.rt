// SPDX-License-Identifier: Apache-2.0
//! What tasks that touch no word of memory do: numbers, jumps, branches and calls.
ghost use Rattle.std.specs.Prelude.{◌≡◌, ◌+◌, ◌<◌, ◌^◌, ◌&&◌, IsTrue, false};
ghost use Rattle.rv_operands.specs.Registers.{NamesRegisters};
ghost use Rattle.rv_table.specs.Arithmetic.{is_branch};
ghost use Rattle.rv_table.specs.Operands.{both_ra as both_ra_of};
ghost use Rattle.sh_machines.specs.Kind.{Branches, CallsThrough, CallsTo, JumpsThrough, JumpsTo, Passes, Sets};
ghost use Rattle.sh_machines.specs.Tokens.{call_way, tail_way};
ghost use Rattle.sh_machines.specs.Unmoved.{is_return};
ghost use Rattle.sh_types.specs.Place.{pair};
ghost use Rattle.sh_types.specs.declared.code.Pair.{Pair};
ghost use Rattle.thread_step.specs.Doing.{DoesAlone};

use crate::code::Code;
use rv_operands::both_ra;
use rv_table::Instr;
use sh_types::Pair;
use thread_acts::{
    Did, Thread, branches, calls_through, calls_to, jumps_through, jumps_to, passes, sets,
};
use token_ways::jump_number;

/// A number goes to a register.
#[inline(always)]
pub fn set_number(thread: &mut Thread, rd: u8, value: u64) -> Did
    requires rd { rd < 32 }
    requires off { thread.old.at.off + 4 < 2 ^ 32 }
    ensures { DoesAlone thread.old thread.new (Sets rd value) result }
{
    sets(thread, rd, value);
    Did::Went { stored: None }
}

/// Nothing is done.
#[inline(always)]
pub fn pass(thread: &mut Thread) -> Did
    requires { thread.old.at.off + 4 < 2 ^ 32 }
    ensures { DoesAlone thread.old thread.new Passes result }
{
    passes(thread);
    Did::Went { stored: None }
}

/// A jump to a pair.
#[inline(always)]
pub fn jump(thread: &mut Thread, func: u32, off: u32) -> Did
    ensures { DoesAlone thread.old thread.new (JumpsTo (pair func off)) result }
{
    jumps_to(thread, Pair { func, off });
    Did::Went { stored: None }
}

/// A call of a function.
#[inline(always)]
pub fn call(thread: &mut Thread, func: u32) -> Did
    requires { thread.old.at.off + 4 < 2 ^ 32 }
    ensures { DoesAlone thread.old thread.new (CallsTo (pair func 0)) result }
{
    calls_to(thread, Pair { func, off: 0 });
    Did::Went { stored: None }
}

/// A branch to an offset of its function.
#[inline(always)]
pub fn branch_to(thread: &mut Thread, instr: Instr, off: u32) -> Did
    requires registers { NamesRegisters instr }
    requires off { thread.old.at.off + 4 < 2 ^ 32 }
    requires branch { IsTrue (is_branch instr.op) }
    ensures { DoesAlone thread.old thread.new (Branches instr (pair thread.old.at.func off)) result }
{
    let to = Pair {
        func: thread.at.func,
        off,
    };
    branches(thread, instr, to)
}

/// Whether an instruction of two registers would read a return address.
fn leaks(thread: &Thread, instr: &Instr) -> bool
    ensures { result ≡ (is_return thread.now.ra && both_ra_of instr.now) }
{
    thread.ra.is_some() && both_ra(instr)
}

/// A word of a branch's class whose mnemonic compares nothing. No path comes to one; it is never taken.
#[cold]
pub fn untaken(thread: &mut Thread, instr: Instr) -> Did
    requires off { thread.old.at.off + 4 < 2 ^ 32 }
    requires other { is_branch instr.op ≡ false }
    ensures { (to : Pair) → DoesAlone thread.old thread.new (Branches instr to) result }
{
    if leaks(thread, &instr) {
        return Did::Leak;
    }
    passes(thread);
    Did::Went { stored: None }
}

/// A call by the number that a register and an immediate make.
pub fn indirect_call(code: &Code, thread: &mut Thread, rs1: u8, imm: i64) -> Did
    requires register { rs1 < 32 }
    requires off { thread.old.at.off + 4 < 2 ^ 32 }
    ensures { DoesAlone thread.old thread.new (CallsThrough rs1 imm (call_way code.now.rows)) result }
{
    let number = jump_number(thread.regs[rs1 as usize], imm);
    let to = code.call_way(number);
    calls_through(thread, rs1, number, to)
}

/// A jump by the number that a register and an immediate make.
pub fn indirect_jump(code: &Code, thread: &mut Thread, rs1: u8, imm: i64) -> Did
    requires register { rs1 < 32 }
    ensures { DoesAlone thread.old thread.new (JumpsThrough rs1 imm (tail_way code.now.rows code.now.labels thread.old.at.func)) result }
{
    let number = jump_number(thread.regs[rs1 as usize], imm);
    let to = code.tail_way(thread.at.func, number);
    jumps_through(thread, rs1, number, to)
}
