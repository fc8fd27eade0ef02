// SPDX-License-Identifier: Apache-2.0
//! Events that are run again, with what each writes in the full form.
ghost use Rattle.std.specs.Prelude.{◌≡◌, ◌+◌, ◌<◌, ◌≤◌, ◌^◌, true, [], ◌∷◌, IfOk, OnOk, string_bytes, length};
ghost use Rattle.sh_machines.specs.Event.{can_all, Allowed, written};
ghost use Rattle.shuf_machine.specs.Past.{state_of};
ghost use Rattle.period_report.specs.Full.{layout_text, move_text, full_event};
ghost use Rattle.period_report.specs.Replay.{setting_in, IsAfter};
ghost use Rattle.period_report.specs.Text.{erase_line};

use crate::copies::digest;
use crate::lines;
use crate::moves::words;
use sh_types::{CopyFetch, Event, NoMemory, Steps};
use shuf_machine::{Machine, MachineNo, allowed_events_are_not_refused};
use std::alloc::Global;
use std::sync::ledger::Ledger;

/// Some instructions of a hart, of which so many are allowed.
fn run_some(machine: &mut Machine, hart: u32, limit: u64) -> Result<u64, NoMemory>
    requires some { 1 ≤ limit }
    requires allowed { Allowed (setting_in machine.old) (Event.Run hart limit) (state_of machine.old) }
    requires room { length (written machine.old.journal) + limit < 2 ^ 64 }
    ensures after { IfOk result (λ n. IsAfter (Event.Run hart n) machine.old machine.new) }
    ensures some { IfOk result (λ n. 1 ≤ n) }
    ensures few { IfOk result (λ n. n ≤ limit) }
{
    let _ = machine.count();
    allowed_events_are_not_refused();
    match machine.run_direct(hart, limit, &mut CopyFetch) {
        Ok(count) => Ok(count),
        Err(MachineNo::NoMemory) => Err(NoMemory),
        Err(MachineNo::NotEnabled { .. }) => unreachable!(),
    }
}

/// So many instructions of a hart, in as many runs as it takes.
fn run(machine: &mut Machine, hart: u32, count: u64) -> Result<(), NoMemory>
    requires can { can_all (setting_in machine.old) hart count (state_of machine.old) ≡ true }
    requires room { length (written machine.old.journal) + count < 2 ^ 64 }
    ensures { OnOk result (IsAfter (Event.Run hart count) machine.old machine.new) }
{
    let mut left = count;
    while left > 0 {
        left -= run_some(machine, hart, left)?;
    }
    Ok(())
}

/// The lines on the newest layout, which came after so many instructions.
pub fn newest(alloc: Global, machine: &Machine, count: u64) -> Result<String, NoMemory>
    ensures { IfOk result (λ text. string_bytes text ≡ layout_text (setting_in machine.now) machine.now.origin.seed (state_of machine.now).newest count) }
{
    let layout = machine.newest();
    let Some(copy) = machine.code(layout.number) else {
        unreachable!()
    };
    let mut text = lines::layout(alloc, layout.number, count, layout.cell)?;
    let digest = digest(alloc, copy, layout)?;
    let line = lines::copy(alloc, layout.number, &digest)?;
    text.push_str(line.as_str())?;
    Ok(text)
}

/// The next layout comes.
fn publish(alloc: Global, machine: &mut Machine, layout: u64) -> Result<String, NoMemory>
    requires { Allowed (setting_in machine.old) (Event.Publish layout) (state_of machine.old) }
    ensures after { OnOk result (IsAfter (Event.Publish layout) machine.old machine.new) }
    ensures text { IfOk result (λ text. string_bytes text ≡ layout_text (setting_in machine.old) machine.old.origin.seed layout (state_of machine.old).count) }
{
    allowed_events_are_not_refused();
    let count = machine.count();
    let blank = machine.take_blank();
    let prepared = machine.prepare_next(alloc, blank)?;
    match machine.publish(prepared) {
        Ok(()) => newest(alloc, machine, count),
        Err(MachineNo::NoMemory) => Err(NoMemory),
        Err(MachineNo::NotEnabled { .. }) => unreachable!(),
    }
}

/// A hart moves to the newest layout.
fn migrate<L: Ledger>(
    alloc: Global,
    machine: &mut Machine,
    hart: u32,
    steps: &mut Steps<L>,
) -> Result<String, NoMemory>
    requires { Allowed (setting_in machine.old) (Event.Migrate hart) (state_of machine.old) }
    ensures after { OnOk result (IsAfter (Event.Migrate hart) machine.old machine.new) }
    ensures text { IfOk result (λ text. string_bytes text ≡ move_text (setting_in machine.old) (state_of machine.old) hart) }
{
    allowed_events_are_not_refused();
    let of = machine.return_words(alloc, hart)?;
    let mut text = lines::migrate(
        alloc,
        hart,
        machine.count(),
        machine.newest().number,
        of.len(),
    )?;
    match machine.migrate(hart, steps) {
        Ok(()) => {}
        Err(MachineNo::NoMemory) => return Err(NoMemory),
        Err(MachineNo::NotEnabled { .. }) => unreachable!(),
    }
    let words = words(alloc, of.as_slice(), machine.memory())?;
    text.push_str(words.as_str())?;
    Ok(text)
}

/// The older layout goes.
fn erase(alloc: Global, machine: &mut Machine, layout: u64) -> Result<String, NoMemory>
    requires { Allowed (setting_in machine.old) (Event.Erase layout) (state_of machine.old) }
    ensures after { OnOk result (IsAfter (Event.Erase layout) machine.old machine.new) }
    ensures text { IfOk result (λ text. string_bytes text ≡ erase_line layout (state_of machine.old).count) }
{
    allowed_events_are_not_refused();
    let line = lines::erase(alloc, layout, machine.count())?;
    match machine.erase_old() {
        Ok(()) => Ok(line),
        Err(MachineNo::NoMemory) => Err(NoMemory),
        Err(MachineNo::NotEnabled { .. }) => unreachable!(),
    }
}

/// An event, with what it writes.
pub fn event<L: Ledger>(
    alloc: Global,
    machine: &mut Machine,
    of: Event,
    steps: &mut Steps<L>,
) -> Result<String, NoMemory>
    requires allowed { Allowed (setting_in machine.old) of (state_of machine.old) }
    requires room { length (written machine.old.journal) + length (written (of ∷ [])) < 2 ^ 64 }
    ensures after { OnOk result (IsAfter of machine.old machine.new) }
    ensures text { IfOk result (λ text. string_bytes text ≡ full_event (setting_in machine.old) machine.old.origin.seed (state_of machine.old) of) }
{
    match of {
        Event::Run { hart, count } => {
            run(machine, hart, count)?;
            Ok(String::new(alloc))
        }
        Event::Migrate { hart } => migrate(alloc, machine, hart, steps),
        Event::Publish { layout } => publish(alloc, machine, layout),
        Event::Erase { layout } => erase(alloc, machine, layout),
    }
}
