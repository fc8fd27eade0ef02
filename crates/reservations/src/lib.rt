// SPDX-License-Identifier: Apache-2.0
//! Reservations (RISC-V Unprivileged ISA, "A" extension, "Load-Reserved/Store-Conditional Instructions").
#![tactic(auto)]

ghost use Rattle.std.specs.Prelude.{◌≡◌};
ghost use Rattle.sh_machines.specs.Need.{is_held as is_held_of, shares as shares_of, kept_from};

use rv_table::Reservation;
use sh_types::Stored;

/// Whether the reservation is of exactly these bytes: `width` of them from the address on.
pub fn is_held(reserved: Option<Reservation>, address: u64, width: u8) -> bool
    ensures { result ≡ is_held_of reserved address width }
{
    match reserved {
        Some(held) => held.address == address && held.width == width,
        None => false,
    }
}

/// Whether a byte is among those of the reservation and those that were stored. Ends are compared in 128 bits, as a range
/// may end at 2^64.
#[tactic(auto, unfolding(sh_machines::specs::Need::shares))]
fn shares(reservation: Reservation, stored: Stored) -> bool
    ensures { result ≡ shares_of reservation stored }
{
    let start = reservation.address.max(stored.address);
    let reserved_end = u128::from(reservation.address) + u128::from(reservation.width);
    let stored_end = u128::from(stored.address) + u128::from(stored.length);
    u128::from(start) < reserved_end.min(stored_end)
}

/// What is left of a reservation after a store of another hart: None where they share a byte.
pub fn kept(reserved: Option<Reservation>, stored: Stored) -> Option<Reservation>
    ensures { result ≡ kept_from stored reserved }
{
    match reserved {
        Some(reservation) => {
            if shares(reservation, stored) {
                None
            } else {
                Some(reservation)
            }
        }
        None => None,
    }
}
