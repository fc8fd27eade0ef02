// SPDX-License-Identifier: Apache-2.0
//! Instructions of one hart, from the copy of the layout that it is on.
ghost use Rattle.std.specs.Prelude.{◌≡◌, ◌+◌, ◌-◌, ◌<◌, ◌≤◌, ◌^◌, true, false, [], None, IfNone, IfOk, IfSome, OnErr, slice_get, vec_len};
ghost use Rattle.guest_mem.specs.Held.{regions_of};
ghost use Rattle.sh_machines.specs.Event.{can_run, instructions};
ghost use Rattle.sh_types.specs.Fetch.{Tells};
ghost use Rattle.sh_machines.specs.Shuffled.{left, harts_lose};
ghost use Rattle.hart_acts.specs.Did.{whole_of};
ghost use Rattle.hart_turns.specs.Meant.{meant, IsLive, IsMapped, setting_of};
ghost use Rattle.hart_turns.specs.Next.{Begins, IsNext, IsQuiet, IsReached, IsWordOf, Steps, any_reserved as any_reserved_of};
ghost use Rattle.hart_turns.specs.Ran.{IsRun, asked_by, asked_in};

use crate::calls::call;
use crate::finishing::{leak, quit, trap};
use crate::going::{can_go, laws, prepared_on};
use crate::losing::{any_reserved, lose};
use crate::state::{LiveCode, Prepared, State};
use hart_step::{Did, Short, long_step, short_step};
use sh_types::{Fetch, NoMemory, Stored, Trap};

/// How an instruction came out: it is done, and the hart goes on; it calls the environment, and nothing is done; it is
/// done, and ended the hart or the run.
#[derive(Clone, Copy)]
enum Step {
    Went,
    Call,
    Stopped,
}

/// The word at the pc of the hart, which is asked for once.
#[inline(always)]
fn next_word<F: Fetch>(
    code: &LiveCode<'_>,
    from: &Prepared,
    state: &State,
    at: u32,
    fetch: &mut F,
) -> u32
    requires next { IsNext code.now from.now (meant code.now state.now) at }
    requires at { at < vec_len state.now.harts }
    ensures word { IsWordOf from.now.copy (slice_get state.now.harts.items at) result }
    ensures asked { Tells (F.asked fetch.old) (asked_by (slice_get state.now.harts.items at)) (F.asked fetch.new) }
{
    let _code = code;
    fetch.word(&from.copy, state.harts[at as usize].pc)
}

/// What the next instruction of a hart does to the hart, if its word is one of those that touch no memory; else nothing.
#[inline(always)]
fn begin_short(
    code: &LiveCode<'_>,
    from: &Prepared,
    state: &mut State,
    at: u32,
    word: u32,
) -> Option<Short>
    requires code { IsLive code.now }
    requires mapped { IsMapped code.now.image.now state.old.memory }
    requires next { IsNext code.now from.now (meant code.now state.old) at }
    requires can { can_run (meant code.now state.old) at ≡ true }
    requires at { at < vec_len state.old.harts }
    requires word { IsWordOf from.now.copy (slice_get state.old.harts.items at) word }
    ensures begins { IfSome result (λ short. Begins (setting_of code.now) at (whole_of short) (meant code.now state.old) (meant code.now state.new)) }
    ensures none { IfNone result (meant code.now state.new ≡ meant code.now state.old) }
    ensures mapped { IsMapped code.now.image.now state.new.memory }
    ensures count { state.new.count ≡ state.old.count }
    ensures end { state.new.end ≡ None }
{
    let _code = code;
    let _from = from;
    short_step(&mut state.harts[at as usize], word)
}

/// What the next instruction of a hart does to the hart and the memory.
#[inline(always)]
fn begin_long(code: &LiveCode<'_>, from: &Prepared, state: &mut State, at: u32, word: u32) -> Did
    requires code { IsLive code.now }
    requires mapped { IsMapped code.now.image.now state.old.memory }
    requires next { IsNext code.now from.now (meant code.now state.old) at }
    requires can { can_run (meant code.now state.old) at ≡ true }
    requires at { at < vec_len state.old.harts }
    requires word { IsWordOf from.now.copy (slice_get state.old.harts.items at) word }
    ensures begins { Begins (setting_of code.now) at result (meant code.now state.old) (meant code.now state.new) }
    ensures mapped { IsMapped code.now.image.now state.new.memory }
    ensures count { state.new.count ≡ state.old.count }
    ensures end { state.new.end ≡ None }
{
    long_step(
        &mut state.harts[at as usize],
        from.layout.layout(),
        code.image.literals.as_slice(),
        code.image.rows.as_slice(),
        code.image.labels.as_slice(),
        word,
        &mut state.memory,
    )
}

/// An instruction is done and counted; what it stored takes reservations of other harts, where one holds any.
#[inline(always)]
fn count(code: &LiveCode<'_>, state: &mut State, at: u32, stored: Option<Stored>, watched: bool)
    requires count { state.old.count < 2 ^ 64 - 1 }
    requires end { state.old.end ≡ None }
    requires watched { watched ≡ false → any_reserved_of at state.old.harts.items ≡ false }
    ensures meant { meant code.now state.new ≡ left (meant code.now state.old) (harts_lose at stored state.old.harts.items) (meant code.now state.old).words (meant code.now state.old).unread [] None }
    ensures regions { regions_of state.new.memory ≡ regions_of state.old.memory }
{
    let _code = code;
    state.count += 1;
    if watched {
        if let Some(stored) = stored {
            lose(&mut state.harts, at, stored);
        }
    }
}

/// One instruction of a hart that can go, by its word, unless it is a call of the environment; for the words that a
/// short step does not take.
#[inline(never)]
fn advance_long(
    code: &LiveCode<'_>,
    from: &Prepared,
    state: &mut State,
    at: u32,
    word: u32,
    watched: bool,
) -> Step
    requires code { IsLive code.now }
    requires mapped { IsMapped code.now.image.now state.old.memory }
    requires next { IsNext code.now from.now (meant code.now state.old) at }
    requires can { can_run (meant code.now state.old) at ≡ true }
    requires at { at < vec_len state.old.harts }
    requires word { IsWordOf from.now.copy (slice_get state.old.harts.items at) word }
    requires count { state.old.count < 2 ^ 64 - 1 }
    requires watched { watched ≡ false → any_reserved_of at state.old.harts.items ≡ false }
    ensures steps { Steps (setting_of code.now) at result (meant code.now state.old) (meant code.now state.new) }
    ensures mapped { IsMapped code.now.image.now state.new.memory }
{
    match begin_long(code, from, state, at, word) {
        Did::Went { stored, .. } => {
            count(code, state, at, stored, watched);
            return Step::Went;
        }
        Did::Call => return Step::Call,
        Did::HartEnd => quit(code, from, state, at),
        Did::Trapped { kind, value } => trap(code, from, state, at, kind, value),
        Did::Leak => leak(code, from, state, at),
    }
    Step::Stopped
}

/// One instruction of a hart that can go, unless it is a call of the environment.
#[inline(always)]
fn advance<F: Fetch>(
    code: &LiveCode<'_>,
    from: &Prepared,
    state: &mut State,
    at: u32,
    watched: bool,
    fetch: &mut F,
) -> Step
    requires code { IsLive code.now }
    requires mapped { IsMapped code.now.image.now state.old.memory }
    requires next { IsNext code.now from.now (meant code.now state.old) at }
    requires can { can_run (meant code.now state.old) at ≡ true }
    requires count { state.old.count < 2 ^ 64 - 1 }
    requires watched { watched ≡ false → any_reserved_of at state.old.harts.items ≡ false }
    ensures steps { Steps (setting_of code.now) at result (meant code.now state.old) (meant code.now state.new) }
    ensures mapped { IsMapped code.now.image.now state.new.memory }
    ensures asked { Tells (F.asked fetch.old) (asked_by (slice_get (meant code.now state.old).harts at)) (F.asked fetch.new) }
{
    let word = next_word(code, from, state, at, fetch);
    match begin_short(code, from, state, at, word) {
        Some(Short::Went) => {
            count(code, state, at, None, watched);
            return Step::Went;
        }
        Some(Short::Leak) => leak(code, from, state, at),
        Some(Short::Illegal) => trap(code, from, state, at, Trap::Illegal, 0),
        None => return advance_long(code, from, state, at, word, watched),
    }
    Step::Stopped
}

/// Instructions of a hart that can go, at most so many, up to a call of the environment. Answers how many.
fn run_to_call<F: Fetch>(
    code: &LiveCode<'_>,
    state: &mut State,
    at: u32,
    most: u64,
    fetch: &mut F,
) -> u64
    requires code { IsLive code.now }
    requires mapped { IsMapped code.now.image.now state.old.memory }
    requires reached { IsReached (setting_of code.now) (meant code.now state.old) }
    requires can { can_run (meant code.now state.old) at ≡ true }
    requires count { state.old.count + most < 2 ^ 64 }
    ensures quiet { IsQuiet (setting_of code.now) at most result (meant code.now state.old) }
    ensures state { meant code.now state.new ≡ instructions (setting_of code.now) at result (meant code.now state.old) }
    ensures mapped { IsMapped code.now.image.now state.new.memory }
    ensures asked { Tells (F.asked fetch.old) (asked_in (setting_of code.now) at most result (meant code.now state.old)) (F.asked fetch.new) }
{
    laws();
    let from = prepared_on(code, state, at);
    let watched = any_reserved(&state.harts, at);
    let mut done: u64 = 0;
    while done < most {
        match advance(code, from, state, at, watched, fetch) {
            Step::Went => done += 1,
            Step::Call => return done,
            Step::Stopped => return done + 1,
        }
    }
    done
}

/// Runs at least one and at most so many instructions of a hart that can go, and says how many. It ends before a call of
/// the environment that is not the first, and where the hart can go no further. Err, and no change, only where memory is
/// refused.
pub fn run_hart<F: Fetch>(
    code: &LiveCode<'_>,
    state: &mut State,
    at: u32,
    limit: u64,
    fetch: &mut F,
) -> Result<u64, NoMemory>
    requires code { IsLive code.now }
    requires mapped { IsMapped code.now.image.now state.old.memory }
    requires reached { IsReached (setting_of code.now) (meant code.now state.old) }
    requires can { can_run (meant code.now state.old) at ≡ true }
    requires some { 1 ≤ limit }
    requires count { state.old.count + limit < 2 ^ 64 }
    ensures run { IfOk result (λ n. IsRun (setting_of code.now) at limit n (meant code.now state.old) (meant code.now state.new)) }
    ensures err { OnErr result (meant code.now state.new ≡ meant code.now state.old) }
    ensures mapped { IsMapped code.now.image.now state.new.memory }
    ensures asked { IfOk result (λ n. Tells (F.asked fetch.old) (asked_in (setting_of code.now) at limit n (meant code.now state.old)) (F.asked fetch.new)) }
{
    let done = run_to_call(code, state, at, limit, fetch);
    if done > 0 {
        return Ok(done);
    }
    call(code, state, at)?;
    if !can_go(code, state, at) {
        return Ok(1);
    }
    Ok(1 + run_to_call(code, state, at, limit - 1, fetch))
}
