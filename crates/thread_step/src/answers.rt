// SPDX-License-Identifier: Apache-2.0
//! The answer of an instruction that is trapped.
ghost use Rattle.std.specs.Prelude.{◌≡◌};

use sh_types::Trap;
use thread_acts::Did;

/// A trap that tells no value.
#[inline(always)]
pub fn trapped(kind: Trap) -> Did
    ensures { result ≡ Did.Trapped kind 0 }
{
    Did::Trapped { kind, value: 0 }
}
