// SPDX-License-Identifier: Apache-2.0
//! Which harts can go, and what they run from.
ghost use Rattle.std.specs.Prelude.{◌≡◌, ◌<◌, true, None, Some, slice_get, vec_len};
ghost use Rattle.sh_machines.specs.Event.{can_run};
ghost use Rattle.hart_turns.specs.Laws.{Laws};
ghost use Rattle.hart_turns.specs.Meant.{meant, IsLive, IsMade, setting_of};
ghost use Rattle.hart_turns.specs.Next.{IsReached, layout_on};

use crate::state::{LiveCode, Prepared, State};
use sh_law::{
    harts_are_placed, instructions_are_counted, machines_agree, no_live_hart_on_an_erased_layout,
    restores_meet_their_own, states_stand,
};
use sh_types::Hart;

/// What the laws of both machines say of every list of events that is legal. It does nothing.
pub fn laws()
    ensures { Laws }
{
    harts_are_placed();
    instructions_are_counted();
    machines_agree();
    no_live_hart_on_an_erased_layout();
    restores_meet_their_own();
    states_stand();
}

/// Whether the run goes on and the hart was started and has not ended.
pub fn can_go(code: &LiveCode<'_>, state: &State, at: u32) -> bool
    ensures { result ≡ can_run (meant code.now state.now) at }
{
    let _code = code;
    match state.end {
        Some(_) => false,
        None => match state.harts.get(at as usize) {
            Some(hart) => hart.live,
            None => false,
        },
    }
}

/// The hart with this number, which can go.
#[tactic(auto, using(crate::proofs::Steps::can_end, crate::proofs::Steps::can_hart))]
pub fn current(code: &LiveCode<'_>, state: &State, at: u32) -> Hart
    requires { can_run (meant code.now state.now) at ≡ true }
    ensures is { slice_get state.now.harts.items at ≡ Some result }
    ensures live { result.live ≡ true }
    ensures end { state.now.end ≡ None }
    ensures at { at < vec_len state.now.harts }
{
    let _code = code;
    state.harts[at as usize]
}

/// The layout that a hart is on, which can go, with its copy.
pub fn prepared_on<'a>(code: &LiveCode<'a>, state: &State, at: u32) -> &'a Prepared
    requires code { IsLive code.now }
    requires reached { IsReached (setting_of code.now) (meant code.now state.now) }
    requires can { can_run (meant code.now state.now) at ≡ true }
    ensures { IsMade (setting_of code.now) (layout_on (meant code.now state.now) at) result.now }
{
    laws();
    let hart = current(code, state, at);
    if hart.layout == code.epochs.newest() {
        return code.newest;
    }
    match code.older {
        Some(older) => older,
        None => unreachable!(),
    }
}
