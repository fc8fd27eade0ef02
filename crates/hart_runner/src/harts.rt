// SPDX-License-Identifier: Apache-2.0
//! Which harts can go, and whose turn is next.
ghost use Rattle.std.specs.Prelude.{◌≡◌, ℕ, ◌<◌, ◌≤◌, true, false, IfSome, IfNone, slice_get};
ghost use Rattle.std.specs.Option.{option_copied};
ghost use Rattle.sh_machines.specs.Event.{is_live as is_live_hart};
ghost use Rattle.sh_machines.specs.Serial.{next_hart as next_hart_of};
ghost use Rattle.sh_machines.specs.Unmoved.{goes_still, can_go, is_alive};
ghost use Rattle.hart_runner.specs.Standing.{pace_of};

use crate::driven::goes_on;
use pace_law::the_next_hart_can_go;
use sh_law::instructions_are_counted;
use sh_types::Hart;
use shuf_machine::{Machine, machines_stand};

fn is_live(hart: Option<&Hart>) -> bool
    ensures { result ≡ is_live_hart (option_copied hart.entry) }
{
    match hart {
        Some(hart) => hart.live,
        None => false,
    }
}

/// Whether the hart with this number is live.
fn lives(machine: &Machine, hart: u32) -> bool
    ensures { result ≡ is_alive (slice_get (pace_of machine.now).guest.threads hart) }
{
    machines_stand(machine);
    is_live(machine.hart(hart))
}

/// Whether the run has not ended and the hart is live.
pub fn can_run(machine: &Machine, hart: u32) -> bool
    ensures { result ≡ can_go (pace_of machine.now).guest hart }
{
    goes_on(machine) && lives(machine, hart)
}

/// The least live hart from a number on.
fn live_from(machine: &Machine, low: u32) -> Option<u32>
    ensures from { IfSome result (λ hart. low ≤ hart) }
    ensures live { IfSome result (λ hart. is_alive (slice_get (pace_of machine.now).guest.threads hart) ≡ true) }
    ensures least { IfSome result (λ hart. (n : ℕ) → low ≤ n → n < hart → is_alive (slice_get (pace_of machine.now).guest.threads n) ≡ false) }
    ensures few { IfSome result (λ hart. hart < 64) }
    ensures none { IfNone result ((n : ℕ) → low ≤ n → is_alive (slice_get (pace_of machine.now).guest.threads n) ≡ false) }
{
    machines_stand(machine);
    instructions_are_counted();
    for hart in low..machine.started() {
        if lives(machine, hart) {
            return Some(hart);
        }
    }
    None
}

/// The hart of the next turn: the least live one from a number on, or else the least.
pub fn next_hart(machine: &Machine, low: u32) -> u32
    requires { goes_still (pace_of machine.now).guest.end ≡ true }
    ensures is { result ≡ next_hart_of low (pace_of machine.now).guest }
    ensures live { can_go (pace_of machine.now).guest result ≡ true }
    ensures few { result < 64 }
{
    the_next_hart_can_go();
    match live_from(machine, low) {
        Some(hart) => hart,
        None => match live_from(machine, 0) {
            Some(hart) => hart,
            None => unreachable!(),
        },
    }
}
