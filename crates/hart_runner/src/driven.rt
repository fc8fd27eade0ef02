// SPDX-License-Identifier: Apache-2.0
//! A machine by what its journal says: where it stands in the serial order, and its next events.
ghost use Rattle.std.specs.Prelude.{◌≡◌, ◌+◌, ◌<◌, ◌≤◌, ◌^◌, true, false, IfOk, OnErr};
ghost use Rattle.sh_machines.specs.Serial.{run_length};
ghost use Rattle.sh_machines.specs.Unmoved.{goes_still, can_go};
ghost use Rattle.shuf_machine.specs.Past.{with_event};
ghost use Rattle.hart_runner.specs.Standing.{image_in, pace_of};

use sh_law::instructions_are_counted;
use sh_types::{CopyFetch, Event, NoMemory};
use shuf_machine::{Machine, MachineNo, machines_stand};

/// Whether the run has not ended.
#[tactic(auto, using(crate::proofs::Written::pace_guest))]
pub fn goes_on(machine: &Machine) -> bool
    ensures { result ≡ goes_still (pace_of machine.now).guest.end }
{
    machines_stand(machine);
    match machine.end() {
        None => true,
        Some(_) => false,
    }
}

/// How many instructions were run.
#[tactic(auto, using(crate::proofs::Written::pace_count))]
pub fn count(machine: &Machine) -> u64
    ensures { result ≡ (pace_of machine.now).count }
{
    machines_stand(machine);
    instructions_are_counted();
    machine.count()
}

/// One Run event of a hart that can go, and its length. Err only where memory is refused, and then the machine stays
/// as it was.
pub fn run(machine: &mut Machine, hart: u32, limit: u64) -> Result<u64, NoMemory>
    requires some { 1 ≤ limit }
    requires can { can_go (pace_of machine.old).guest hart ≡ true }
    requires count { (pace_of machine.old).count + limit < 2 ^ 64 }
    ensures ok { IfOk result (λ n. machine.new ≡ with_event machine.old (Event.Run hart n)) }
    ensures length { IfOk result (λ n. n ≡ run_length (image_in machine.old) hart limit (pace_of machine.old).guest) }
    ensures err { OnErr result (machine.new ≡ machine.old) }
{
    machines_stand(machine);
    instructions_are_counted();
    match machine.run_direct(hart, limit, &mut CopyFetch) {
        Ok(count) => Ok(count),
        Err(MachineNo::NoMemory) => Err(NoMemory),
        Err(MachineNo::NotEnabled { .. }) => unreachable!(),
    }
}
