// SPDX-License-Identifier: Apache-2.0
//! Calls of the environment (RISC-V Unprivileged ISA, "Environment Call and Breakpoints"): the number is in a7, the
//! arguments are in a0 to a3, and the answer goes to a0.
ghost use Rattle.std.specs.Prelude.{◌≡◌, ℕ, ◌+◌, ◌-◌, ◌<◌, ◌≤◌, ◌^◌, ◌++◌, [], ◌∷◌, Some, None, true, length, take, OnOk, OnErr, slice_get, slice_set, vec_len, vec_capacity};
ghost use Rattle.sh_types.specs.Limits.{most_harts};
ghost use Rattle.sh_machines.specs.Need.{Calls};
ghost use Rattle.sh_machines.specs.Unmoved.{Content, leaves, set_thread, start_regs as start_regs_of, unmoved_step};
ghost use Rattle.thread_acts.specs.Done.{meant};
ghost use Rattle.ref_machine.specs.Calling.{CanAct, CanRead, acted};
ghost use Rattle.ref_machine.specs.Meant.{IsCode, IsMapped, state_of, threads_of};
ghost use Rattle.ref_machine.specs.Next.{IsNext};

use crate::asking::{Answer, ask, unread};
use crate::finishing::{end_hart, stop};
use crate::going::current;
use crate::losing::lose;
use crate::state::State;
use plain_memory::Contents;
use sh_types::{CodeRef, End, NoMemory, Pair, Stored};
use thread_acts::Thread;
use thread_step::Code;

/// The registers of a hart that is started.
fn start_regs(argument: u64, stack: u64, thread: u64) -> [u64; 32]
    ensures { result ≡ start_regs_of argument stack thread }
{
    let mut regs = [0; 32];

    regs[10] = argument;
    regs[2] = stack;
    regs[4] = thread;
    regs
}

/// The answer goes to a0, and the hart goes on behind the call.
fn reply(state: &mut State, at: u32, thread: Thread, value: u64)
    requires count { state.old.count < 2 ^ 64 - 1 }
    requires at { at < vec_len state.old.threads }
    requires end { state.old.end ≡ None }
    requires low { thread.at.off + 4 < 2 ^ 32 }
    ensures state { (u : ℕ → Content) → state_of state.new u ≡ leaves (state_of state.old u) (slice_set (threads_of state.old.threads.items) at (set_thread (meant thread) 10 value)) u (state_of state.old u).unread [] None }
    ensures count { state.new.count ≡ state.old.count + 1 }
    ensures len { vec_len state.new.threads ≡ vec_len state.old.threads }
    ensures room { vec_capacity state.new.threads ≡ vec_capacity state.old.threads }
{
    let mut answered = thread;
    answered.regs[10] = value;
    answered.at.off += 4;
    state.threads[at as usize] = answered;
    state.count += 1;
}

/// The call read so many of the input's next bytes, which are put from an address on.
fn read<M: Contents>(
    state: &mut State,
    memory: &mut M,
    at: u32,
    thread: Thread,
    address: u64,
    length: u64,
)
    requires can { CanRead (M.regions memory.old) (state_of state.old (M.contents memory.old)) address length }
    requires count { state.old.count < 2 ^ 64 - 1 }
    requires at { at < vec_len state.old.threads }
    requires end { state.old.end ≡ None }
    requires low { thread.at.off + 4 < 2 ^ 32 }
    ensures state { state_of state.new (M.contents memory.new) ≡ acted at (meant thread) (Answer.Reads address length) (state_of state.old (M.contents memory.old)) }
    ensures count { state.new.count ≡ state.old.count + 1 }
    ensures regions { M.regions memory.new ≡ M.regions memory.old }
    ensures room { vec_capacity state.new.threads ≡ vec_capacity state.old.threads }
{
    let input = &unread(state.input.as_slice(), state.read)[..length as usize];
    memory.fill(address, input);
    state.read += length as usize;
    reply(state, at, thread, length);
    lose(&mut state.threads, at, Stored { address, length });
}

/// The call started a hart at a function, with these numbers in a0, sp and tp.
fn start(state: &mut State, at: u32, thread: Thread, func: u32, regs: [u64; 32])
    requires few { length state.old.threads.items < most_harts }
    requires count { state.old.count < 2 ^ 64 - 1 }
    requires at { at < vec_len state.old.threads }
    requires end { state.old.end ≡ None }
    requires low { thread.at.off + 4 < 2 ^ 32 }
    requires room { most_harts ≤ vec_capacity state.old.threads }
    ensures state { (u : ℕ → Content) (a0 sp tp : ℕ) → regs ≡ start_regs_of a0 sp tp → state_of state.new u ≡ acted at (meant thread) (Answer.Starts func a0 sp tp) (state_of state.old u) }
    ensures count { state.new.count ≡ state.old.count + 1 }
    ensures room { vec_capacity state.new.threads ≡ vec_capacity state.old.threads }
{
    let number = state.threads.len() as u32;
    let begun = Thread {
        number,
        live: true,
        code: 0,
        at: Pair { func, off: 0 },
        regs,
        ra: Some(CodeRef::Root),
        reserved: None,
    };
    reply(state, at, thread, u64::from(number));
    state.threads.push_reserved(begun);
}

/// Does what the call of a hart came to.
fn act<M: Contents>(state: &mut State, memory: &mut M, at: u32, thread: Thread, answer: Answer)
    requires can { CanAct (M.regions memory.old) (state_of state.old (M.contents memory.old)) answer }
    requires count { state.old.count < 2 ^ 64 - 1 }
    requires at { at < vec_len state.old.threads }
    requires end { state.old.end ≡ None }
    requires low { thread.at.off + 4 < 2 ^ 32 }
    requires room { most_harts ≤ vec_capacity state.old.threads }
    ensures state { state_of state.new (M.contents memory.new) ≡ acted at (meant thread) answer (state_of state.old (M.contents memory.old)) }
    ensures count { state.new.count ≡ state.old.count + 1 }
    ensures regions { M.regions memory.new ≡ M.regions memory.old }
    ensures room { vec_capacity state.new.threads ≡ vec_capacity state.old.threads }
{
    match answer {
        Answer::Value { value } => reply(state, at, thread, value),
        Answer::Reads { address, length } => read(state, memory, at, thread, address, length),
        Answer::Starts {
            func,
            argument,
            stack,
            thread: pointer,
        } => {
            let regs = start_regs(argument, stack, pointer);
            start(state, at, thread, func, regs);
        }
        Answer::ExitsHart { code } => end_hart(state, memory, at, thread, code),
        Answer::ExitsRun { code } => stop(state, End::Exit { code }),
        Answer::Leaks => {
            let pair = thread.at;
            stop(state, End::Leak { hart: at, pair });
        }
    }
}

/// A hart that can go calls the environment. Err, and no change, only where memory is refused.
pub fn call<M: Contents>(
    code: &Code,
    state: &mut State,
    memory: &mut M,
    at: u32,
) -> Result<(), NoMemory>
    requires code { IsCode code.now }
    requires mapped { IsMapped code.now (M.regions memory.old) }
    requires next { IsNext code.now at Calls (state_of state.old (M.contents memory.old)) }
    requires count { state.old.count < 2 ^ 64 - 1 }
    requires room { most_harts ≤ vec_capacity state.old.threads }
    ensures state { OnOk result (state_of state.new (M.contents memory.new) ≡ unmoved_step code.now at (state_of state.old (M.contents memory.old))) }
    ensures count { OnOk result (state.new.count ≡ state.old.count + 1) }
    ensures err { OnErr result (state_of state.new (M.contents memory.new) ≡ state_of state.old (M.contents memory.old)) }
    ensures err_count { OnErr result (state.new.count ≡ state.old.count) }
    ensures regions { M.regions memory.new ≡ M.regions memory.old }
    ensures room { vec_capacity state.new.threads ≡ vec_capacity state.old.threads }
{
    let thread = current(state, at);
    let answer = ask(code, state, memory, &thread)?;
    act(state, memory, at, thread, answer);
    Ok(())
}
