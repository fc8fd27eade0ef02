// SPDX-License-Identifier: Apache-2.0
//! Which harts can go.
ghost use Rattle.std.specs.Prelude.{◌≡◌, ◌<◌, None, Some, true, nat_lt, ◌&&◌, slice_get, vec_len};
ghost use Rattle.std.specs.Option.{option_copied};
ghost use Rattle.ref_machine.specs.Meant.{goes, is_live as is_live_thread};

use crate::state::State;
use thread_acts::Thread;

fn is_live(thread: Option<&Thread>) -> bool
    ensures { result ≡ is_live_thread (option_copied thread.entry) }
{
    match thread {
        Some(thread) => thread.live,
        None => false,
    }
}

/// Whether the run goes on and the hart was started and has not ended.
#[tactic(auto, using(crate::proofs::Lives::lives))]
pub fn can_go(state: &State, at: u32) -> bool
    ensures { result ≡ goes state.now at }
{
    state.end.is_none() && is_live(state.threads.get(at as usize))
}

/// Whether the hart can go, and the count is below a limit.
pub fn goes_below(state: &State, at: u32, limit: u64) -> bool
    ensures { result ≡ nat_lt state.now.count limit && goes state.now at }
{
    state.count < limit && can_go(state, at)
}

/// The hart with this number, which can go.
#[tactic(auto, using(crate::proofs::Lives::goes_end, crate::proofs::Lives::goes_there))]
pub fn current(state: &State, at: u32) -> Thread
    requires { goes state.now at ≡ true }
    ensures is { slice_get state.now.threads.items at ≡ Some result }
    ensures live { result.live ≡ true }
    ensures end { state.now.end ≡ None }
    ensures at { at < vec_len state.now.threads }
{
    state.threads[at as usize]
}
