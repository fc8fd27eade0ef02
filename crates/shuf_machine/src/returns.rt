// SPDX-License-Identifier: Apache-2.0
//! The return words of a hart.
ghost use Rattle.std.specs.Prelude.{◌≡◌, ◌<◌, ◌≤◌, ◌/◌, ◌*◌, IfOk, slice_get};
ghost use Rattle.std.specs.Option.{option_copied};
ghost use Rattle.guest_mem.specs.Held.{words_of, owned_count};
ghost use Rattle.hart_unwinder.specs.Owned.{addresses};
ghost use Rattle.hart_unwinder.specs.Words.{owned_words};
ghost use Rattle.sh_law.specs.Reach.{SoundIn};
ghost use Rattle.sh_types.specs.Limits.{most_harts};
ghost use Rattle.shuf_machine.specs.Meant.{IsCode, IsMachine, IsUp};
ghost use Rattle.shuf_machine.specs.Returns.{return_word, words_on, return_words as return_words_of};
ghost use Rattle.shuf_machine.specs.Run.{setting_of, shuffled_run};

use crate::answers::ReturnWord;
use crate::code::Code;
use crate::live::prepared_on;
use guest_mem::GuestMem;
use hart_turns::State;
use hart_unwinder::{Slots, walk};
use layout_index::Placed;
use return_cipher::unseal;
use sh_law::{
    harts_are_placed, instructions_are_counted, no_live_hart_on_an_erased_layout, owners_are_live,
};
use sh_types::{CodeRef, Event, FrameTable, Hart, Items, NoMemory, Steps};
use std::alloc::{AllocError, Global};
use std::marker::Brand;
use std::sync::ledger::{Blank, Ledger};

/// The return word at an address, opened for a hart on a layout.
fn return_at(layout: &Placed, hart: u32, memory: &GuestMem, slot: u64) -> ReturnWord
    requires hart { hart < most_harts }
    requires slot { 8 * (slot / 8) ≡ slot }
    ensures { result ≡ return_word layout.now hart (words_of memory.now) (slot / 8) }
{
    let (word, _) = memory.word(slot);
    let at = match layout.whose(unseal(layout.key(hart), slot, word)) {
        Some(pair) => CodeRef::At(pair),
        None => CodeRef::Root,
    };
    ReturnWord {
        address: slot,
        word,
        at,
    }
}

/// The return words at the addresses of the words that a hart owns.
fn words_at(
    alloc: Global,
    layout: &Placed,
    hart: u32,
    memory: &GuestMem,
    slots: &[u64],
) -> Result<Vec<ReturnWord>, AllocError>
    requires hart { hart < most_harts }
    requires slots { slots.now ≡ addresses (owned_words (words_of memory.now) hart) }
    ensures { IfOk result (λ v. v.items ≡ words_on layout.now hart (words_of memory.now)) }
{
    let mut words = Vec::with_capacity(alloc, slots.len())?;
    for slot in slots {
        words.push(return_at(layout, hart, memory, *slot))?;
    }
    Ok(words)
}

/// Finds the addresses of the words that a hart owns, with a counter of its own.
fn find_slots<L: Ledger>(
    hart: &Hart,
    layout: &Placed,
    frames: &Items<FrameTable>,
    memory: &GuestMem,
    slots: &mut Slots,
    blank: Blank,
)
    requires number { hart.now.number < most_harts }
    requires sound { SoundIn frames.now layout.now hart.now (words_of memory.now) }
    requires room { owned_count (words_of memory.now) hart.now.number ≤ slots.old.room }
    requires name { blank.name ≡ L.name }
    requires parts { blank.parts ≡ L.parts }
    requires some { 0 < blank.parts }
    ensures { slots.new.list ≡ addresses (owned_words (words_of memory.now) hart.now.number) }
{
    let mut steps = Steps::<L>::new(blank);
    walk(hart, layout, frames, memory, slots, &mut steps);
}

/// The return words of a live hart.
fn live_words(
    alloc: Global,
    code: &Code,
    state: &State,
    hart: &Hart,
) -> Result<Items<ReturnWord>, NoMemory>
    requires code { IsCode code.now }
    requires up { IsUp code.now state.now hart.now }
    ensures { IfOk result (λ ws. ws ≡ words_on ((setting_of code.now.image code.now.origin).layout_at hart.now.layout) hart.now.number (words_of state.now.memory)) }
{
    let Some(prepared) = prepared_on(code, hart.layout) else {
        unreachable!()
    };
    let frames = &code.image.frames;
    let mut slots = Slots::new(alloc);
    slots.reserve(state.memory.owned(hart.number))?;
    find_slots::<Brand>(
        hart,
        &prepared.layout,
        frames,
        &state.memory,
        &mut slots,
        Blank::new(1),
    );
    let words = words_at(
        alloc,
        &prepared.layout,
        hart.number,
        &state.memory,
        slots.list(),
    )?;
    Ok(Items::from_vec(words))
}

/// The hart with this number; None exactly where it was never started.
fn hart_at(state: &State, at: u32) -> Option<&Hart>
    ensures { option_copied result ≡ slice_get state.now.harts.items at }
{
    state.harts.get(at as usize)
}

/// The return words of the hart with this number, by rising address. There is none where it was never started or has
/// ended.
pub fn return_words(
    alloc: Global,
    code: &Code,
    state: &State,
    journal: &[Event],
    at: u32,
) -> Result<Items<ReturnWord>, NoMemory>
    requires is { IsMachine code.now state.now journal.now }
    ensures { IfOk result (λ ws. ws ≡ return_words_of (setting_of code.now.image code.now.origin) (shuffled_run code.now.image code.now.origin journal.now) at) }
{
    harts_are_placed();
    instructions_are_counted();
    no_live_hart_on_an_erased_layout();
    owners_are_live();
    match hart_at(state, at) {
        Some(hart) if hart.live => live_words(alloc, code, state, hart),
        _ => Ok(Items::new(alloc)),
    }
}
