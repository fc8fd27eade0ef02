// SPDX-License-Identifier: Apache-2.0
//! Reservations that a store of another hart takes.
ghost use Rattle.std.specs.Prelude.{◌≡◌, map};
ghost use Rattle.sh_machines.specs.Shuffled.{hart_loses};
ghost use Rattle.hart_turns.specs.Next.{any_reserved as any_reserved_of};

use reservations::kept;
use sh_types::{Hart, Stored};

/// The hart with a number stores.
fn lose_one(hart: &mut Hart, at: u32, stored: Stored)
    ensures { hart.new ≡ hart_loses at stored hart.old }
{
    if hart.number != at {
        hart.reserved = kept(hart.reserved, stored);
    }
}

/// What the hart with a number stores takes from each other one a reservation that shares a byte with it.
pub fn lose(harts: &mut [Hart], at: u32, stored: Stored)
    ensures { harts.new ≡ map (hart_loses at stored) harts.old }
{
    for hart in harts.iter_mut() {
        lose_one(hart, at, stored);
    }
}

/// Whether another hart than the one with this number holds a reservation.
pub fn any_reserved(harts: &[Hart], at: u32) -> bool
    ensures { result ≡ any_reserved_of at harts.now }
{
    for hart in harts {
        if hart.number != at && hart.reserved.is_some() {
            return true;
        }
    }
    false
}
