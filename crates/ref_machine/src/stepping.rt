// SPDX-License-Identifier: Apache-2.0
//! Instructions of one hart.
ghost use Rattle.std.specs.Prelude.{◌≡◌, ℕ, ◌+◌, ◌-◌, ◌<◌, ◌≤◌, ◌^◌, Bool, true, OnOk, OnErr, vec_len, vec_capacity};
ghost use Rattle.sh_types.specs.Limits.{most_harts};
ghost use Rattle.sh_machines.specs.Unmoved.{Content, Unmoved};
ghost use Rattle.thread_acts.specs.Done.{meant};
ghost use Rattle.ref_machine.specs.Meant.{IsCode, IsMapped, IsSound, goes, state_of, threads_of};
ghost use Rattle.ref_machine.specs.Next.{IsAt, IsDue, Pauses, goes_alone as goes_alone_by, lost, settled};
ghost use Rattle.ref_machine.specs.Ran.{RanOn, RanShort};

use crate::calls::call;
use crate::finishing::{leak, quit, trap};
use crate::losing::{any_reserved, lose};
use crate::state::State;
use plain_memory::Contents;
use sh_types::{NoMemory, Stored};
use thread_acts::{Did, Thread};
use thread_step::{Code, quick_step, step};

/// Whether the instruction went, and no other hart can have lost a reservation by it. `watched`: another hart may hold one.
#[inline(always)]
fn goes_alone(did: Did, watched: bool) -> bool
    ensures { result ≡ goes_alone_by did watched }
{
    match did {
        Did::Went { stored } => !watched || stored.is_none(),
        _ => false,
    }
}

/// Instructions of a hart that can go, counted, until the count is `limit`, or up to one that is more than the hart's
/// own: that is answered, and still to be counted. `watched`: another hart may hold a reservation.
fn go_alone<M: Contents>(
    code: &Code,
    thread: &mut Thread,
    memory: &mut M,
    count: &mut u64,
    limit: u64,
    watched: bool,
) -> Result<Option<Did>, NoMemory>
    requires mapped { IsMapped code.now (M.regions memory.old) }
    requires count { count.old ≤ limit }
    ensures pauses { (n : ℕ) (u : Unmoved) → IsAt n watched u (meant thread.old) (M.contents memory.old) → Pauses code.now n limit count.old count.new u (meant thread.new) (M.contents memory.new) result }
    ensures regions { M.regions memory.new ≡ M.regions memory.old }
{
    while *count < limit {
        if !quick_step(code, thread, memory) {
            let did = step(code, thread, memory)?;
            if !goes_alone(did, watched) {
                return Ok(Some(did));
            }
        }
        *count += 1;
    }
    Ok(None)
}

/// An instruction is counted; what it stored takes reservations of other harts.
fn count_one(state: &mut State, at: u32, stored: Option<Stored>)
    requires { state.old.count < 2 ^ 64 - 1 }
    ensures state { (u : ℕ → Content) → state_of state.new u ≡ lost at stored (state_of state.old u) }
    ensures count { state.new.count ≡ state.old.count + 1 }
    ensures room { vec_capacity state.new.threads ≡ vec_capacity state.old.threads }
{
    state.count += 1;
    if let Some(stored) = stored {
        lose(&mut state.threads, at, stored);
    }
}

/// What is more than a hart's own of its instruction. Err, and no change, only where memory is refused.
fn settle<M: Contents>(
    code: &Code,
    state: &mut State,
    memory: &mut M,
    at: u32,
    did: Did,
) -> Result<(), NoMemory>
    requires code { IsCode code.now }
    requires mapped { IsMapped code.now (M.regions memory.old) }
    requires due { IsDue code.now at did (state_of state.old (M.contents memory.old)) }
    requires count { state.old.count < 2 ^ 64 - 1 }
    requires room { most_harts ≤ vec_capacity state.old.threads }
    ensures state { OnOk result (state_of state.new (M.contents memory.new) ≡ settled code.now at did (state_of state.old (M.contents memory.old))) }
    ensures count { OnOk result (state.new.count ≡ state.old.count + 1) }
    ensures err { OnErr result (state_of state.new (M.contents memory.new) ≡ state_of state.old (M.contents memory.old)) }
    ensures err_count { OnErr result (state.new.count ≡ state.old.count) }
    ensures err_call { OnErr result (did ≡ Did.Call) }
    ensures regions { M.regions memory.new ≡ M.regions memory.old }
    ensures room { vec_capacity state.new.threads ≡ vec_capacity state.old.threads }
{
    match did {
        Did::Went { stored } => count_one(state, at, stored),
        Did::Call => return call(code, state, memory, at),
        Did::HartEnd => quit(code, state, memory, at),
        Did::Trapped { kind, value } => trap(code, state, memory, at, kind, value),
        Did::Leak => leak(code, state, memory, at),
    }
    Ok(())
}

/// At least one instruction of a hart that can go, until the count is `limit` at most. Err only where memory is refused;
/// then there may be none.
pub fn advance<M: Contents>(
    code: &Code,
    state: &mut State,
    memory: &mut M,
    at: u32,
    limit: u64,
) -> Result<(), NoMemory>
    requires code { IsCode code.now }
    requires mapped { IsMapped code.now (M.regions memory.old) }
    requires sound { IsSound (state_of state.old (M.contents memory.old)) }
    requires can { goes state.old at ≡ true }
    requires room { most_harts ≤ vec_capacity state.old.threads }
    requires count { state.old.count < limit }
    ensures ok { OnOk result (RanOn code.now at limit state.old.count (state_of state.old (M.contents memory.old)) state.new.count (state_of state.new (M.contents memory.new))) }
    ensures err { OnErr result (RanShort code.now at limit state.old.count (state_of state.old (M.contents memory.old)) state.new.count (state_of state.new (M.contents memory.new))) }
    ensures regions { M.regions memory.new ≡ M.regions memory.old }
    ensures room { vec_capacity state.new.threads ≡ vec_capacity state.old.threads }
{
    let watched = any_reserved(&state.threads, at);
    let thread = &mut state.threads[at as usize];
    let pause = go_alone(code, thread, memory, &mut state.count, limit, watched)?;
    match pause {
        Some(did) => settle(code, state, memory, at, did),
        None => Ok(()),
    }
}
