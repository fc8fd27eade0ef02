// SPDX-License-Identifier: Apache-2.0
//! Reservations that a store of another hart takes.
ghost use Rattle.std.specs.Prelude.{◌≡◌, map};
ghost use Rattle.ref_machine.specs.Losing.{any_reserved as any_reserved_of, loses};
ghost use Rattle.ref_machine.specs.Meant.{threads_of};

use reservations::kept;
use sh_types::Stored;
use thread_acts::Thread;

/// The hart with a number stores.
fn lose_one(thread: &mut Thread, at: u32, stored: Stored)
    ensures { thread.new ≡ loses at stored thread.old }
{
    if thread.number != at {
        thread.reserved = kept(thread.reserved, stored);
    }
}

/// What the hart with a number stores takes from each other one a reservation that shares a byte with it.
pub fn lose(threads: &mut [Thread], at: u32, stored: Stored)
    ensures { threads.new ≡ map (loses at stored) threads.old }
{
    for thread in threads.iter_mut() {
        lose_one(thread, at, stored);
    }
}

/// Whether another hart than the one with this number holds a reservation.
pub fn any_reserved(threads: &[Thread], at: u32) -> bool
    ensures { result ≡ any_reserved_of at (threads_of threads.now) }
{
    for thread in threads {
        if thread.number != at && thread.reserved.is_some() {
            return true;
        }
    }
    false
}
