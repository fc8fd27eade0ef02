// SPDX-License-Identifier: Apache-2.0
//! Instructions that end a hart or the run.
ghost use Rattle.std.specs.Prelude.{◌≡◌, ℕ, ◌+◌, ◌-◌, ◌<◌, ◌^◌, ◌%◌, None, Some, vec_len, vec_capacity};
ghost use Rattle.sh_machines.specs.Need.{Quits, Traps, Leaks};
ghost use Rattle.sh_machines.specs.Unmoved.{Content, any_alive, first_answer, thread_ends, stands_still, unmoved_step};
ghost use Rattle.thread_acts.specs.Done.{meant};
ghost use Rattle.ref_machine.specs.Meant.{state_of, threads_of};
ghost use Rattle.ref_machine.specs.Next.{IsNext};

use crate::going::current;
use crate::state::State;
use plain_memory::Contents;
use sh_types::{End, Trap};
use thread_acts::Thread;
use thread_step::Code;

fn any_live(threads: &[Thread]) -> bool
    ensures { result ≡ any_alive (threads_of threads.now) }
{
    for thread in threads {
        if thread.live {
            return true;
        }
    }
    false
}

fn first_code(threads: &[Thread]) -> u8
    ensures { result ≡ first_answer (threads_of threads.now) }
{
    match threads.first() {
        Some(thread) => thread.code,
        None => 0,
    }
}

/// Ends the run by an instruction.
pub fn stop(state: &mut State, end: End)
    requires { state.old.count < 2 ^ 64 - 1 }
    ensures state { (u : ℕ → Content) → state_of state.new u ≡ stands_still (state_of state.old u) end }
    ensures count { state.new.count ≡ state.old.count + 1 }
    ensures room { vec_capacity state.new.threads ≡ vec_capacity state.old.threads }
{
    state.count += 1;
    state.end = Some(end);
}

/// Ends a hart by an instruction; its return words become zeros, and the run ends with the last hart. `thread` is the
/// hart with this number.
pub fn end_hart<M: Contents>(state: &mut State, memory: &mut M, at: u32, thread: Thread, exit: u8)
    requires count { state.old.count < 2 ^ 64 - 1 }
    requires at { at < vec_len state.old.threads }
    requires end { state.old.end ≡ None }
    ensures state { state_of state.new (M.contents memory.new) ≡ thread_ends (state_of state.old (M.contents memory.old)) at (meant thread) exit }
    ensures count { state.new.count ≡ state.old.count + 1 }
    ensures regions { M.regions memory.new ≡ M.regions memory.old }
    ensures room { vec_capacity state.new.threads ≡ vec_capacity state.old.threads }
{
    memory.empty(thread.number);
    state.threads[at as usize] = Thread {
        live: false,
        code: exit,
        ..thread
    };
    state.count += 1;
    if !any_live(&state.threads) {
        state.end = Some(End::Exit {
            code: first_code(&state.threads),
        });
    }
}

/// The low byte of a number, which is the code of an end.
fn low_byte(number: u64) -> u8
    ensures { result ≡ number % 256 }
{
    (number % 256) as u8
}

/// The hart returns to the root, which ends it.
#[cold]
pub fn quit<M: Contents>(code: &Code, state: &mut State, memory: &mut M, at: u32)
    requires next { IsNext code.now at Quits (state_of state.old (M.contents memory.old)) }
    requires count { state.old.count < 2 ^ 64 - 1 }
    ensures state { state_of state.new (M.contents memory.new) ≡ unmoved_step code.now at (state_of state.old (M.contents memory.old)) }
    ensures count { state.new.count ≡ state.old.count + 1 }
    ensures regions { M.regions memory.new ≡ M.regions memory.old }
    ensures room { vec_capacity state.new.threads ≡ vec_capacity state.old.threads }
{
    let _code = code;
    let thread = current(state, at);
    end_hart(state, memory, at, thread, low_byte(thread.regs[10]));
}

/// The run ends with a trap.
#[cold]
pub fn trap<M: Contents>(
    code: &Code,
    state: &mut State,
    memory: &M,
    at: u32,
    kind: Trap,
    value: u64,
)
    requires next { IsNext code.now at (Traps kind value) (state_of state.old (M.contents memory.now)) }
    requires count { state.old.count < 2 ^ 64 - 1 }
    ensures state { state_of state.new (M.contents memory.now) ≡ unmoved_step code.now at (state_of state.old (M.contents memory.now)) }
    ensures count { state.new.count ≡ state.old.count + 1 }
    ensures room { vec_capacity state.new.threads ≡ vec_capacity state.old.threads }
{
    let (_code, _memory) = (code, memory);
    let pair = current(state, at).at;
    stop(
        state,
        End::Trapped {
            kind,
            hart: at,
            pair,
            value,
        },
    );
}

/// The run ends because a return address was used as data.
#[cold]
pub fn leak<M: Contents>(code: &Code, state: &mut State, memory: &M, at: u32)
    requires next { IsNext code.now at Leaks (state_of state.old (M.contents memory.now)) }
    requires count { state.old.count < 2 ^ 64 - 1 }
    ensures state { state_of state.new (M.contents memory.now) ≡ unmoved_step code.now at (state_of state.old (M.contents memory.now)) }
    ensures count { state.new.count ≡ state.old.count + 1 }
    ensures room { vec_capacity state.new.threads ≡ vec_capacity state.old.threads }
{
    let (_code, _memory) = (code, memory);
    let pair = current(state, at).at;
    stop(state, End::Leak { hart: at, pair });
}
