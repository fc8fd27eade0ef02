// SPDX-License-Identifier: Apache-2.0
//! The registers of a hart and the pair that it is at.
ghost use Rattle.std.specs.Prelude.{◌≡◌, ℕ, ◌+◌, ◌^◌, ◌<◌, ◌&&◌, List, None};
ghost use Rattle.sh_types.specs.declared.code.Region.{Region};
ghost use Rattle.sh_machines.specs.Kind.{Passes, Sets};
ghost use Rattle.sh_machines.specs.Need.{answered};
ghost use Rattle.sh_machines.specs.Unmoved.{Content, is_return, next_of, set_thread, steps, thread_does};
ghost use Rattle.thread_acts.specs.Done.{IsDone, meant};

use crate::answers::Did;
use crate::threads::Thread;
use sh_types::Pair;

/// The pair of the next word.
#[inline(always)]
pub fn next(at: Pair) -> Pair
    requires { at.off + 4 < 2 ^ 32 }
    ensures { result ≡ next_of at }
{
    Pair {
        func: at.func,
        off: at.off + 4,
    }
}

/// Whether an instruction would use a return address as data; `reads_ra` says that it reads ra.
#[inline(always)]
pub fn leaks(thread: &Thread, reads_ra: bool) -> bool
    ensures { result ≡ (is_return thread.now.ra && reads_ra) }
{
    match thread.ra {
        Some(_) => reads_ra,
        None => false,
    }
}

/// On to the next word.
#[inline(always)]
pub fn advance(thread: &mut Thread)
    requires { thread.old.at.off + 4 < 2 ^ 32 }
    ensures { meant thread.new ≡ steps (meant thread.old) }
{
    thread.at = next(thread.at);
}

/// Puts a plain number into a register, of which x0 stays 0, and goes on to the next word.
#[inline(always)]
pub fn set(thread: &mut Thread, rd: u8, value: u64)
    requires rd { rd < 32 }
    requires off { thread.old.at.off + 4 < 2 ^ 32 }
    ensures { meant thread.new ≡ set_thread (meant thread.old) rd value }
{
    if rd != 0 {
        thread.regs[rd as usize] = value;
    }
    if rd == 1 {
        thread.ra = None;
    }
    thread.at = next(thread.at);
}

/// An instruction that puts a number into a register.
#[inline(always)]
pub fn sets(thread: &mut Thread, rd: u8, value: u64)
    requires rd { rd < 32 }
    requires off { thread.old.at.off + 4 < 2 ^ 32 }
    ensures { (regions : List Region) (u : ℕ → Content) → IsDone (answered (thread_does regions (meant thread.old) (Sets rd value)) u) thread.old thread.new u u (Did.Went None) }
{
    set(thread, rd, value);
}

/// An instruction that does nothing.
pub fn passes(thread: &mut Thread)
    requires off { thread.old.at.off + 4 < 2 ^ 32 }
    ensures { (regions : List Region) (u : ℕ → Content) → IsDone (answered (thread_does regions (meant thread.old) Passes) u) thread.old thread.new u u (Did.Went None) }
{
    advance(thread);
}
