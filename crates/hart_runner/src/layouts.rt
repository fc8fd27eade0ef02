// SPDX-License-Identifier: Apache-2.0
//! The events on layouts of a machine whose journal keeps pace, as the serial order wants them.
ghost use Rattle.std.specs.Prelude.{◌≡◌, ℕ, ◌+◌, ◌-◌, ◌<◌, ◌^◌, [], true, false, Some, OnOk, OnErr, slice_get};
ghost use Rattle.std.specs.Option.{option_copied};
ghost use Rattle.sh_machines.specs.Event.{is_off};
ghost use Rattle.sh_machines.specs.Unmoved.{goes_still};
ghost use Rattle.shuf_machine.specs.Past.{with_event, state_of};
ghost use Rattle.hart_runner.specs.Standing.{pace_of, IsInPace, first_of};

use sh_law::instructions_are_counted;
use sh_types::{Event, Hart, NoMemory, Steps};
use shuf_machine::{Machine, MachineNo, machines_stand};
use std::alloc::Global;
use std::sync::ledger::Ledger;

/// The number of the newest layout.
#[tactic(auto, unfolding(layout_maker::specs::Layout::layout_of))]
pub fn newest(machine: &Machine) -> u64
    requires { IsInPace machine.now }
    ensures { result ≡ (pace_of machine.now).newest }
{
    machines_stand(machine);
    machine.newest().number
}

/// Whether the layout before the newest one is live.
pub fn has_older(machine: &Machine) -> bool
    requires { IsInPace machine.now }
    ensures { result ≡ (pace_of machine.now).older }
{
    machines_stand(machine);
    match machine.older() {
        Some(_) => true,
        None => false,
    }
}

/// Whether the hart is live and not on the newest layout.
fn is_behind(hart: Option<&Hart>, newest: u64) -> bool
    ensures { result ≡ is_off newest (option_copied hart.entry) }
{
    match hart {
        Some(hart) => hart.live && hart.layout != newest,
        None => false,
    }
}

/// The least live hart that is not on the newest layout.
pub fn next_behind(machine: &Machine) -> Option<u32>
    requires { IsInPace machine.now }
    ensures { result ≡ first_of (pace_of machine.now).behind }
{
    machines_stand(machine);
    instructions_are_counted();
    let newest = newest(machine);
    for hart in 0..machine.started() {
        if is_behind(machine.hart(hart), newest) {
            return Some(hart);
        }
    }
    None
}

/// The least hart that is behind moves to the newest layout. Err only where memory is refused, and then the machine
/// stays as it was.
pub fn migrate<L: Ledger>(
    machine: &mut Machine,
    hart: u32,
    steps: &mut Steps<L>,
) -> Result<(), NoMemory>
    requires goes { goes_still (pace_of machine.old).guest.end ≡ true }
    requires pace { IsInPace machine.old }
    requires behind { first_of (pace_of machine.old).behind ≡ Some hart }
    ensures ok { OnOk result (machine.new ≡ with_event machine.old (Event.Migrate hart)) }
    ensures err { OnErr result (machine.new ≡ machine.old) }
{
    machines_stand(machine);
    match machine.migrate(hart, steps) {
        Ok(()) => Ok(()),
        Err(MachineNo::NoMemory) => Err(NoMemory),
        Err(MachineNo::NotEnabled { .. }) => unreachable!(),
    }
}

/// The next layout is published, in the memory of the copy that was erased last. Err only where memory is refused, and
/// then the machine stays as it was.
pub fn publish(alloc: Global, machine: &mut Machine) -> Result<(), NoMemory>
    requires goes { goes_still (pace_of machine.old).guest.end ≡ true }
    requires pace { IsInPace machine.old }
    requires one { (pace_of machine.old).older ≡ false }
    requires room { (pace_of machine.old).newest < 2 ^ 64 - 1 }
    ensures ok { OnOk result (machine.new ≡ with_event machine.old (Event.Publish ((pace_of machine.old).newest + 1))) }
    ensures err { OnErr result (machine.new ≡ machine.old) }
{
    machines_stand(machine);
    let blank = machine.take_blank();
    let prepared = machine.prepare_next(alloc, blank)?;
    match machine.publish(prepared) {
        Ok(()) => Ok(()),
        Err(MachineNo::NoMemory) => Err(NoMemory),
        Err(MachineNo::NotEnabled { .. }) => unreachable!(),
    }
}

/// The older layout, which no hart is on, is erased. Err only where memory is refused, and then the machine stays as it
/// was.
pub fn erase(machine: &mut Machine) -> Result<(), NoMemory>
    requires goes { goes_still (pace_of machine.old).guest.end ≡ true }
    requires pace { IsInPace machine.old }
    requires older { (pace_of machine.old).older ≡ true }
    requires none { (pace_of machine.old).behind ≡ [] }
    ensures ok { OnOk result (machine.new ≡ with_event machine.old (Event.Erase ((pace_of machine.old).newest - 1))) }
    ensures err { OnErr result (machine.new ≡ machine.old) }
{
    machines_stand(machine);
    match machine.erase_old() {
        Ok(()) => Ok(()),
        Err(MachineNo::NoMemory) => Err(NoMemory),
        Err(MachineNo::NotEnabled { .. }) => unreachable!(),
    }
}
