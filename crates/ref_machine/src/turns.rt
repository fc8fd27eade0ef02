// SPDX-License-Identifier: Apache-2.0
//! The serial order: turns of live harts, one after another.
ghost use Rattle.std.specs.Prelude.{◌≡◌, ℕ, ◌+◌, ◌-◌, ◌<◌, ◌≤◌, ◌^◌, true, length, IfSome, IfNone, OnOk, OnErr, vec_capacity};
ghost use Rattle.sh_types.specs.Limits.{most_harts};
ghost use Rattle.sh_machines.specs.Pace.{live_from as live_of};
ghost use Rattle.sh_machines.specs.PlainSerial.{is_over as is_over_of, plain_turns, written_turns};
ghost use Rattle.sh_machines.specs.Serial.{first_or, next_from};
ghost use Rattle.sh_machines.specs.Unmoved.{Content};
ghost use Rattle.ref_machine.specs.Meant.{IsCode, IsMapped, IsSound, state_of, threads_of};
ghost use Rattle.ref_machine.specs.Ran.{IsTurn, Listed, ListedPart, RanShort};

use crate::going::goes_below;
use crate::state::State;
use crate::stepping::advance;
use plain_memory::Contents;
use sh_types::NoMemory;
use thread_acts::Thread;
use thread_step::Code;

/// A turn of a hart: its instructions, until the hart or the run has ended or the count is `limit`.
fn take_turn<M: Contents>(
    code: &Code,
    state: &mut State,
    memory: &mut M,
    at: u32,
    limit: u64,
) -> Result<(), NoMemory>
    requires code { IsCode code.now }
    requires mapped { IsMapped code.now (M.regions memory.old) }
    requires sound { IsSound (state_of state.old (M.contents memory.old)) }
    requires room { most_harts ≤ vec_capacity state.old.threads }
    requires count { state.old.count ≤ limit }
    ensures ok { OnOk result (IsTurn code.now at limit state.old.count (state_of state.old (M.contents memory.old)) state.new.count (state_of state.new (M.contents memory.new))) }
    ensures err { OnErr result (RanShort code.now at limit state.old.count (state_of state.old (M.contents memory.old)) state.new.count (state_of state.new (M.contents memory.new))) }
    ensures regions { M.regions memory.new ≡ M.regions memory.old }
    ensures room { vec_capacity state.new.threads ≡ vec_capacity state.old.threads }
{
    while goes_below(state, at, limit) {
        advance(code, state, memory, at, limit)?;
    }
    Ok(())
}

/// The least live hart from a number on.
fn live_from(threads: &[Thread], low: u32) -> Option<u32>
    requires { length threads.now ≤ most_harts }
    ensures found { IfSome result (λ hart. (d : ℕ) → next_from low (live_of 0 (threads_of threads.now)) d ≡ hart) }
    ensures few { IfSome result (λ hart. hart < most_harts) }
    ensures none { IfNone result ((d : ℕ) → next_from low (live_of 0 (threads_of threads.now)) d ≡ d) }
{
    for hart in 0..threads.len() {
        if threads[hart].live && low as usize <= hart {
            return Some(hart as u32);
        }
    }
    None
}

/// The hart of the next turn: the least live one from a number on, or else the least.
fn next_hart(threads: &[Thread], low: u32) -> u32
    requires { length threads.now ≤ most_harts }
    ensures is { result ≡ next_from low (live_of 0 (threads_of threads.now)) (first_or 0 (live_of 0 (threads_of threads.now))) }
    ensures few { result < most_harts }
{
    match live_from(threads, low) {
        Some(hart) => hart,
        None => live_from(threads, 0).unwrap_or(0),
    }
}

/// Whether the run has ended or has all its instructions.
fn is_over(state: &State, steps: u64) -> bool
    ensures { (u : ℕ → Content) → result ≡ is_over_of steps state.now.count (state_of state.now u) }
{
    state.end.is_some() || state.count == steps
}

/// Turns in the serial order from where the run stands, until it ends or has `steps` instructions in all. Err only where
/// memory is refused; the first of these instructions are executed then.
pub fn run<M: Contents>(
    code: &Code,
    state: &mut State,
    memory: &mut M,
    quantum: u32,
    steps: u64,
) -> Result<(), NoMemory>
    requires code { IsCode code.now }
    requires mapped { IsMapped code.now (M.regions memory.old) }
    requires sound { IsSound (state_of state.old (M.contents memory.old)) }
    requires room { most_harts ≤ vec_capacity state.old.threads }
    requires quantum { 1 ≤ quantum }
    requires steps { state.old.count ≤ steps }
    ensures ok { OnOk result (Listed code.now (written_turns (plain_turns code.now quantum steps state.old.count (state_of state.old (M.contents memory.old)))) state.old.count (state_of state.old (M.contents memory.old)) state.new.count (state_of state.new (M.contents memory.new))) }
    ensures done { OnOk result (is_over_of steps state.new.count (state_of state.new (M.contents memory.new)) ≡ true) }
    ensures err { OnErr result (ListedPart code.now (written_turns (plain_turns code.now quantum steps state.old.count (state_of state.old (M.contents memory.old)))) state.old.count (state_of state.old (M.contents memory.old)) state.new.count (state_of state.new (M.contents memory.new))) }
    ensures regions { M.regions memory.new ≡ M.regions memory.old }
    ensures room { vec_capacity state.new.threads ≡ vec_capacity state.old.threads }
{
    let mut low = 0;
    while !is_over(state, steps) {
        let hart = next_hart(&state.threads, low);
        let limit = state.count + u64::from(quantum).min(steps - state.count);
        take_turn(code, state, memory, hart, limit)?;
        low = hart + 1;
    }
    Ok(())
}
