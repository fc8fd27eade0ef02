// SPDX-License-Identifier: Apache-2.0
//! What an instruction did.
ghost use Rattle.std.specs.Prelude.{◌≡◌, Some, None};
ghost use Rattle.sh_machines.specs.Need.{stored_at};
ghost use Rattle.thread_acts.specs.Done.{did_of};
ghost use Rattle.thread_acts.specs.Refused.{refused_as};

use plain_memory::AccessFault;
use sh_types::{Stored, Trap};

/// How an instruction came out. `Went`: it is done, and stored the range `stored`, if it was a store or a save. In all
/// other cases nothing has changed: the hart calls its environment; it returned to the root, which ends it; it was
/// trapped, with the value that the trap tells; it would have used a return address as data.
#[derive(Clone, Copy, Debug, PartialEq, Eq)]
pub enum Did {
    Went { stored: Option<Stored> },
    Call,
    HartEnd,
    Trapped { kind: Trap, value: u64 },
    Leak,
}

/// An instruction that is done and stored nothing.
#[inline(always)]
pub fn went() -> Did
    ensures { result ≡ Did.Went None }
{
    Did::Went { stored: None }
}

/// An instruction that is done and stored so many bytes from an address on.
#[inline(always)]
pub fn stored(address: u64, length: u8) -> Did
    ensures { result ≡ Did.Went (Some (stored_at address length)) }
{
    Did::Went {
        stored: Some(Stored {
            address,
            length: u64::from(length),
        }),
    }
}

/// The answer where memory refused the address; `kind` is the trap for a byte that is not mapped.
pub fn refused(fault: AccessFault, kind: Trap, address: u64) -> Did
    ensures { result ≡ did_of (refused_as fault kind address) }
{
    match fault {
        AccessFault::Misaligned => Did::Trapped {
            kind: Trap::Misaligned,
            value: address,
        },
        AccessFault::Fault => Did::Trapped {
            kind,
            value: address,
        },
        AccessFault::Leak => Did::Leak,
    }
}
