// SPDX-License-Identifier: Apache-2.0
//! The serial order.
ghost use Rattle.std.specs.Prelude.{◌≡◌, ◌+◌, ◌-◌, ◌<◌, ◌≤◌, ◌^◌, [], true, false, OnOk, OnErr};
ghost use Rattle.sh_machines.specs.Pace.{IsPaced, live_from};
ghost use Rattle.sh_machines.specs.Serial.{migrations, cleared_away, publication as publication_by, ready, turn, is_due as is_due_by, is_done as is_done_by, serial_from, serial_list};
ghost use Rattle.sh_machines.specs.Unmoved.{goes_still};
ghost use Rattle.pace_law.specs.Step.{InStep};
ghost use Rattle.shuf_machine.specs.Past.{state_of};
ghost use Rattle.hart_runner.specs.Plans.{schedule_of};
ghost use Rattle.hart_runner.specs.Standing.{image_in, pace_of, with_events, IsPart, IsInPace, IsAtPublication};

use crate::driven::{count, goes_on, run};
use crate::harts::{can_run, next_hart};
use crate::layouts::{erase, has_older, migrate, newest, next_behind, publish};
use crate::plan::{Plan, limit_at};
use sh_types::{NoMemory, Steps};
use shuf_machine::{Machine, machines_stand};
use std::alloc::Global;
use std::marker::Brand;
use std::sync::ledger::{Blank, Ledger};

/// Each live hart that is not on the newest layout moves to it.
fn migrate_all<L: Ledger>(machine: &mut Machine, steps: &mut Steps<L>) -> Result<(), NoMemory>
    requires goes { goes_still (pace_of machine.old).guest.end ≡ true }
    requires pace { IsInPace machine.old }
    ensures ok { OnOk result (machine.new ≡ with_events machine.old (migrations (pace_of machine.old).behind)) }
    ensures err { OnErr result (IsPart (migrations (pace_of machine.old).behind) machine.old machine.new) }
{
    while let Some(hart) = next_behind(machine) {
        migrate(machine, hart, steps)?;
    }
    Ok(())
}

/// Where an older layout is live, its harts leave it and it goes.
fn clear<L: Ledger>(machine: &mut Machine, steps: &mut Steps<L>) -> Result<(), NoMemory>
    requires goes { goes_still (pace_of machine.old).guest.end ≡ true }
    requires pace { IsInPace machine.old }
    ensures ok { OnOk result (machine.new ≡ with_events machine.old (cleared_away (pace_of machine.old))) }
    ensures err { OnErr result (IsPart (cleared_away (pace_of machine.old)) machine.old machine.new) }
{
    if !has_older(machine) {
        return Ok(());
    }
    migrate_all(machine, steps)?;
    erase(machine)
}

/// The next layout comes, each live hart moves to it, and the one before goes.
fn publication<L: Ledger>(
    alloc: Global,
    machine: &mut Machine,
    steps: &mut Steps<L>,
) -> Result<(), NoMemory>
    requires goes { goes_still (pace_of machine.old).guest.end ≡ true }
    requires due { IsAtPublication machine.old }
    requires one { (pace_of machine.old).older ≡ false }
    requires room { (pace_of machine.old).newest < 2 ^ 64 - 1 }
    ensures ok { OnOk result (machine.new ≡ with_events machine.old (publication_by ((pace_of machine.old).newest + 1) (live_from 0 (pace_of machine.old).guest.threads))) }
    ensures err { OnErr result (IsPart (publication_by ((pace_of machine.old).newest + 1) (live_from 0 (pace_of machine.old).guest.threads)) machine.old machine.new) }
{
    publish(alloc, machine)?;
    migrate_all(machine, steps)?;
    erase(machine)
}

/// Whether the layout for this count is not yet published.
fn is_due(machine: &Machine, period: u64) -> bool
    requires period { 1 ≤ period }
    requires pace { IsInPace machine.now }
    ensures { result ≡ is_due_by period (pace_of machine.now) }
{
    let count = count(machine);
    0 < count && (count % period == 0 && newest(machine) <= count / period)
}

/// What comes before a turn: the boundary where it is due, else the migrations that are missing.
fn make_ready<L: Ledger>(
    alloc: Global,
    machine: &mut Machine,
    period: u64,
    steps: &mut Steps<L>,
) -> Result<(), NoMemory>
    requires period { 1 ≤ period }
    requires goes { goes_still (pace_of machine.old).guest.end ≡ true }
    requires paced { IsPaced (image_in machine.old) machine.old.origin.input period machine.old.journal }
    requires step { InStep period (pace_of machine.old) }
    requires room { (pace_of machine.old).newest < 2 ^ 64 - 1 }
    ensures ok { OnOk result (machine.new ≡ with_events machine.old (ready period (pace_of machine.old))) }
    ensures err { OnErr result (IsPart (ready period (pace_of machine.old)) machine.old machine.new) }
{
    if !is_due(machine, period) {
        return migrate_all(machine, steps);
    }
    clear(machine, steps)?;
    publication(alloc, machine, steps)
}

/// A turn of a hart, of at most so many instructions.
fn take_turn(machine: &mut Machine, hart: u32, limit: u64) -> Result<(), NoMemory>
    requires { (pace_of machine.old).count + limit < 2 ^ 64 }
    ensures ok { OnOk result (machine.new ≡ with_events machine.old (turn (image_in machine.old) hart limit (pace_of machine.old))) }
    ensures err { OnErr result (IsPart (turn (image_in machine.old) hart limit (pace_of machine.old)) machine.old machine.new) }
{
    let mut left = limit;
    while left > 0 && can_run(machine, hart) {
        left -= run(machine, hart, left)?;
    }
    Ok(())
}

/// Whether the run has ended or has all its instructions.
fn is_done(machine: &Machine, plan: &Plan) -> bool
    ensures { result ≡ is_done_by (schedule_of plan.now) (pace_of machine.now) }
{
    !goes_on(machine) || count(machine) == plan.steps
}

/// Runs a machine in the serial order from where it stands, also one that was left between a publication and its
/// migrations, until the run ends or has `plan.steps` instructions. What the journal grows by is a function of the
/// image, the input, the plan and where the journal stands; that of a new machine is the whole list of the serial
/// order. Err only where memory is refused; the journal then grew by the first of these events.
pub fn run_serial<L: Ledger>(
    alloc: Global,
    machine: &mut Machine,
    plan: &Plan,
    steps: &mut Steps<L>,
) -> Result<(), NoMemory>
    requires period { 1 ≤ plan.now.period }
    requires quantum { 1 ≤ plan.now.quantum }
    requires small { plan.now.steps < 2 ^ 63 }
    requires paced { IsPaced (image_in machine.old) machine.old.origin.input plan.now.period machine.old.journal }
    requires few { (state_of machine.old).count ≤ plan.now.steps }
    ensures ok { OnOk result (machine.new ≡ with_events machine.old (serial_from (image_in machine.old) (schedule_of plan.now) (pace_of machine.old))) }
    ensures serial { OnOk result (machine.old.journal ≡ [] → machine.new.journal ≡ serial_list (image_in machine.old) machine.old.origin.input (schedule_of plan.now)) }
    ensures done { OnOk result (is_done_by (schedule_of plan.now) (pace_of machine.new) ≡ true) }
    ensures err { OnErr result (IsPart (serial_from (image_in machine.old) (schedule_of plan.now) (pace_of machine.old)) machine.old machine.new) }
    ensures paced { IsPaced (image_in machine.new) machine.new.origin.input plan.now.period machine.new.journal }
{
    machines_stand(machine);
    let mut low = 0;
    while !is_done(machine, plan) {
        make_ready(alloc, machine, plan.period, steps)?;
        let hart = next_hart(machine, low);
        let limit = limit_at(plan, count(machine));
        take_turn(machine, hart, limit)?;
        low = hart + 1;
    }
    Ok(())
}

/// A run of a machine that has done nothing, with a counter of the steps that migrations take.
#[tactic(auto, using(crate::proofs::Opening::opening_paced, crate::proofs::Opening::opening_count))]
fn run_counted<L: Ledger>(
    alloc: Global,
    machine: &mut Machine,
    plan: &Plan,
    blank: Blank,
) -> Result<(), NoMemory>
    requires fresh { machine.old.journal ≡ [] }
    requires period { 1 ≤ plan.now.period }
    requires quantum { 1 ≤ plan.now.quantum }
    requires small { plan.now.steps < 2 ^ 63 }
    requires name { blank.name ≡ L.name }
    requires parts { blank.parts ≡ L.parts }
    requires some { 0 < blank.parts }
    ensures image { OnOk result (machine.new.image ≡ machine.old.image) }
    ensures origin { OnOk result (machine.new.origin ≡ machine.old.origin) }
    ensures serial { OnOk result (machine.new.journal ≡ serial_list (image_in machine.old) machine.old.origin.input (schedule_of plan.now)) }
{
    let mut steps = Steps::<L>::new(blank);
    run_serial(alloc, machine, plan, &mut steps)
}

/// Runs a machine that has done nothing in the serial order, until the run ends or has `plan.steps` instructions. Its
/// journal is then the whole list of the serial order, which is a function of the image, the input and the plan. Err only
/// where memory is refused.
pub fn run_new(alloc: Global, machine: &mut Machine, plan: &Plan) -> Result<(), NoMemory>
    requires fresh { machine.old.journal ≡ [] }
    requires period { 1 ≤ plan.now.period }
    requires quantum { 1 ≤ plan.now.quantum }
    requires small { plan.now.steps < 2 ^ 63 }
    ensures image { OnOk result (machine.new.image ≡ machine.old.image) }
    ensures origin { OnOk result (machine.new.origin ≡ machine.old.origin) }
    ensures serial { OnOk result (machine.new.journal ≡ serial_list (image_in machine.old) machine.old.origin.input (schedule_of plan.now)) }
{
    run_counted::<Brand>(alloc, machine, plan, Blank::new(1))
}
