// SPDX-License-Identifier: Apache-2.0
//! The state that a run begins with.
ghost use Rattle.std.specs.Prelude.{◌≡◌, ◌≤◌, IfOk, vec_capacity};
ghost use Rattle.sh_types.specs.Limits.{most_harts};
ghost use Rattle.sh_machines.specs.Unmoved.{first_thread};
ghost use Rattle.thread_acts.specs.Done.{meant};
ghost use Rattle.ref_machine.specs.Meant.{IsOpening};

use crate::state::State;
use sh_types::limits::{FIRST_SP, MOST_HARTS};
use sh_types::{Bytes, CodeRef, Image, NoMemory, Pair};
use std::alloc::Global;
use thread_acts::Thread;

/// The hart at the entry.
fn first(image: &Image) -> Thread
    ensures { meant result ≡ first_thread image.now }
{
    let mut regs = [0; 32];
    regs[2] = FIRST_SP;
    Thread {
        number: 0,
        live: true,
        code: 0,
        at: Pair {
            func: image.entry,
            off: 0,
        },
        regs,
        ra: Some(CodeRef::Root),
        reserved: None,
    }
}

/// The state before the first instruction, with room for as many harts as there may be.
pub fn first_state(alloc: Global, image: &Image, input: Bytes) -> Result<State, NoMemory>
    ensures opening { IfOk result (λ s. IsOpening image.now input s) }
    ensures room { IfOk result (λ s. most_harts ≤ vec_capacity s.threads) }
{
    let mut threads = Vec::with_capacity(alloc, MOST_HARTS as usize)?;
    threads.push_reserved(first(image));
    Ok(State {
        threads,
        input,
        read: 0,
        output: Vec::new(alloc),
        count: 0,
        end: None,
    })
}
