// SPDX-License-Identifier: Apache-2.0
//! Calls of the environment (RISC-V Unprivileged ISA, "Environment Call and Breakpoints"): the number is in a7, the
//! arguments are in a0 to a3, and the answer goes to a0.
ghost use Rattle.std.specs.Prelude.{◌≡◌, ℕ, ◌+◌, ◌-◌, ◌<◌, ◌≤◌, ◌^◌, ◌++◌, [], ◌∷◌, Some, None, true, length, take, OnOk, OnErr, slice_get, slice_set, vec_len, vec_capacity};
ghost use Rattle.sh_types.specs.Limits.{most_harts};
ghost use Rattle.guest_mem.specs.Held.{regions_of};
ghost use Rattle.sh_machines.specs.Event.{can_run};
ghost use Rattle.sh_machines.specs.Need.{Calls, stored_at};
ghost use Rattle.sh_machines.specs.Shuffled.{left, set_hart, harts_lose, fills, new_hart, shuffled_step};
ghost use Rattle.sh_machines.specs.Unmoved.{start_regs as start_regs_of};
ghost use Rattle.hart_turns.specs.Calling.{CanAct, CanRead, CanStart, acted};
ghost use Rattle.hart_turns.specs.Meant.{meant, IsLive, IsMade, IsMapped, setting_of};
ghost use Rattle.hart_turns.specs.Next.{IsReached, next_outcome};

use crate::asking::{Answer, ask, unread};
use crate::finishing::{end_hart, pair_at, stop};
use crate::going::{current, laws, prepared_on};
use crate::losing::lose;
use crate::state::{LiveCode, Prepared, State};
use crate::transfers::fill;
use sh_types::limits::MOST_HARTS;
use sh_types::{End, Hart, NoMemory, Pair, Stored};

/// The registers of a hart that is started.
fn start_regs(argument: u64, stack: u64, thread: u64) -> [u64; 32]
    ensures { result ≡ start_regs_of argument stack thread }
{
    let mut regs = [0; 32];

    regs[10] = argument;
    regs[2] = stack;
    regs[4] = thread;
    regs
}

/// The answer goes to a0, and the hart goes on behind the call.
fn reply(code: &LiveCode<'_>, state: &mut State, at: u32, hart: Hart, value: u64)
    requires count { state.old.count < 2 ^ 64 - 1 }
    requires at { at < vec_len state.old.harts }
    requires end { state.old.end ≡ None }
    requires low { hart.pc < 2 ^ 63 }
    ensures meant { meant code.now state.new ≡ left (meant code.now state.old) (slice_set (meant code.now state.old).harts at (set_hart hart 10 value)) (meant code.now state.old).words (meant code.now state.old).unread [] None }
    ensures regions { regions_of state.new.memory ≡ regions_of state.old.memory }
    ensures room { vec_capacity state.new.harts ≡ vec_capacity state.old.harts }
{
    let _code = code;
    let mut answered = hart;
    answered.regs[10] = value;
    answered.pc += 4;
    state.harts[at as usize] = answered;
    state.count += 1;
}

/// The call read so many of the input's next bytes, which are put from an address on.
fn read(code: &LiveCode<'_>, state: &mut State, at: u32, hart: Hart, address: u64, length: u64)
    requires code { IsLive code.now }
    requires mapped { IsMapped code.now.image.now state.old.memory }
    requires can { CanRead (setting_of code.now) (meant code.now state.old) address length }
    requires count { state.old.count < 2 ^ 64 - 1 }
    requires at { at < vec_len state.old.harts }
    requires end { state.old.end ≡ None }
    requires low { hart.pc < 2 ^ 63 }
    ensures meant { meant code.now state.new ≡ acted (setting_of code.now) at hart (Answer.Reads address length) (meant code.now state.old) }
    ensures regions { regions_of state.new.memory ≡ regions_of state.old.memory }
{
    let input = &unread(code, state.read)[..length as usize];
    fill(&mut state.memory, address, input);
    state.read += length as usize;
    reply(code, state, at, hart, length);
    lose(&mut state.harts, at, Stored { address, length });
}

/// The call started a hart at a function, with these numbers in a0, sp and tp, on the layout of the calling one.
fn start(
    code: &LiveCode<'_>,
    from: &Prepared,
    state: &mut State,
    at: u32,
    hart: Hart,
    func: u32,
    regs: [u64; 32],
)
    requires code { IsLive code.now }
    requires made { IsMade (setting_of code.now) hart.layout from.now }
    requires can { CanStart (setting_of code.now) (meant code.now state.old) func }
    requires count { state.old.count < 2 ^ 64 - 1 }
    requires at { at < vec_len state.old.harts }
    requires end { state.old.end ≡ None }
    requires low { hart.pc < 2 ^ 63 }
    requires room { vec_len state.old.harts < most_harts → vec_len state.old.harts < vec_capacity state.old.harts }
    ensures meant { (argument stack thread : ℕ) → regs ≡ start_regs_of argument stack thread → meant code.now state.new ≡ acted (setting_of code.now) at hart (Answer.Starts func argument stack thread) (meant code.now state.old) }
    ensures regions { regions_of state.new.memory ≡ regions_of state.old.memory }
{
    let number = state.harts.len() as u32;
    let begun = Hart {
        number,
        live: true,
        code: 0,
        layout: hart.layout,
        pc: from.layout.place(Pair { func, off: 0 }),
        regs,
        marked: true,
        reserved: None,
    };
    reply(code, state, at, hart, u64::from(number));
    state.harts.push_reserved(begun);
}

/// Does what the call of a hart came to.
fn act(code: &LiveCode<'_>, from: &Prepared, state: &mut State, at: u32, hart: Hart, answer: Answer)
    requires code { IsLive code.now }
    requires mapped { IsMapped code.now.image.now state.old.memory }
    requires made { IsMade (setting_of code.now) hart.layout from.now }
    requires number { hart.number < most_harts }
    requires can { CanAct (setting_of code.now) (meant code.now state.old) answer }
    requires count { state.old.count < 2 ^ 64 - 1 }
    requires at { at < vec_len state.old.harts }
    requires end { state.old.end ≡ None }
    requires low { hart.pc < 2 ^ 63 }
    requires room { vec_len state.old.harts < most_harts → vec_len state.old.harts < vec_capacity state.old.harts }
    ensures meant { meant code.now state.new ≡ acted (setting_of code.now) at hart answer (meant code.now state.old) }
    ensures regions { regions_of state.new.memory ≡ regions_of state.old.memory }
{
    match answer {
        Answer::Value { value } => reply(code, state, at, hart, value),
        Answer::Reads { address, length } => read(code, state, at, hart, address, length),
        Answer::Starts {
            func,
            argument,
            stack,
            thread,
        } => {
            let regs = start_regs(argument, stack, thread);
            start(code, from, state, at, hart, func, regs);
        }
        Answer::ExitsHart { code: exit } => end_hart(code, state, at, hart, exit),
        Answer::ExitsRun { code: exit } => stop(code, state, End::Exit { code: exit }),
        Answer::Leaks => {
            let pair = pair_at(from, hart.pc);
            stop(code, state, End::Leak { hart: at, pair });
        }
    }
}

/// Room for a further hart, where there may be one.
fn make_room(harts: &mut Vec<Hart>) -> Result<(), NoMemory>
    ensures items { harts.new.items ≡ harts.old.items }
    ensures room { OnOk result (vec_len harts.new < most_harts → vec_len harts.new < vec_capacity harts.new) }
{
    if harts.len() < MOST_HARTS as usize {
        harts.reserve(1)?;
    }
    Ok(())
}

/// A hart that can go calls the environment. Err, and no change, only where memory is refused.
pub fn call(code: &LiveCode<'_>, state: &mut State, at: u32) -> Result<(), NoMemory>
    requires code { IsLive code.now }
    requires mapped { IsMapped code.now.image.now state.old.memory }
    requires reached { IsReached (setting_of code.now) (meant code.now state.old) }
    requires can { can_run (meant code.now state.old) at ≡ true }
    requires next { next_outcome (setting_of code.now) at (meant code.now state.old) ≡ Calls }
    requires count { state.old.count < 2 ^ 64 - 1 }
    ensures done { OnOk result (meant code.now state.new ≡ shuffled_step (setting_of code.now) at (meant code.now state.old)) }
    ensures err { OnErr result (meant code.now state.new ≡ meant code.now state.old) }
    ensures mapped { IsMapped code.now.image.now state.new.memory }
{
    laws();
    let from = prepared_on(code, state, at);
    let hart = current(code, state, at);
    make_room(&mut state.harts)?;
    let answer = ask(code, state, &hart)?;
    act(code, from, state, at, hart, answer);
    Ok(())
}
