// SPDX-License-Identifier: Apache-2.0
//! One instruction of any hart.
ghost use Rattle.std.specs.Prelude.{◌≡◌, ◌-◌, ◌<◌, ◌≤◌, ◌^◌, [], ◌∷◌, OnOk, OnErr, vec_capacity};
ghost use Rattle.sh_types.specs.Limits.{most_harts};
ghost use Rattle.ref_machine.specs.Meant.{IsCode, IsMapped, IsSound, state_of};
ghost use Rattle.ref_machine.specs.Ran.{Listed};
ghost use Rattle.ref_machine.specs.Refusal.{Answers, refusal};

use crate::answers::PlainNo;
use crate::going::can_go;
use crate::state::State;
use crate::stepping::advance;
use plain_memory::Contents;
use sh_types::NoMemory;
use thread_step::Code;

/// One instruction of a hart. An Err leaves the run where it stood.
pub fn step_one<M: Contents>(
    code: &Code,
    state: &mut State,
    memory: &mut M,
    hart: u32,
) -> Result<(), PlainNo>
    requires code { IsCode code.now }
    requires mapped { IsMapped code.now (M.regions memory.old) }
    requires sound { IsSound (state_of state.old (M.contents memory.old)) }
    requires room { most_harts ≤ vec_capacity state.old.threads }
    requires count { state.old.count < 2 ^ 64 - 1 }
    ensures ok { OnOk result (Listed code.now (hart ∷ []) state.old.count (state_of state.old (M.contents memory.old)) state.new.count (state_of state.new (M.contents memory.new))) }
    ensures answer { Answers result (refusal (state_of state.old (M.contents memory.old)) hart) }
    ensures err { OnErr result (Listed code.now [] state.old.count (state_of state.old (M.contents memory.old)) state.new.count (state_of state.new (M.contents memory.new))) }
    ensures regions { M.regions memory.new ≡ M.regions memory.old }
    ensures room { vec_capacity state.new.threads ≡ vec_capacity state.old.threads }
{
    if state.end.is_some() {
        return Err(PlainNo::RunEnded);
    }
    if !can_go(state, hart) {
        return Err(PlainNo::NoHart { hart });
    }
    let limit = state.count + 1;
    match advance(code, state, memory, hart, limit) {
        Ok(()) => Ok(()),
        Err(NoMemory) => Err(PlainNo::NoMemory),
    }
}
