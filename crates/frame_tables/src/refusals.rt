// SPDX-License-Identifier: Apache-2.0
//! Why a function has no table.
ghost use Rattle.std.specs.Prelude.{◌≡◌};
ghost use Rattle.frame_tables.specs.declared.refusals.FrameNo.TheVariants.{NoMemory};

use sh_types::Rule;
use std::alloc::{AllocError, AllocFailed};

/// Why a function has no table of frames: memory was refused, or the word at this offset, in bytes, breaks this rule.
#[derive(Clone, Copy, Debug, PartialEq, Eq)]
pub enum FrameNo {
    NoMemory,
    Refused { off: u32, rule: Rule },
}

impl From<AllocError> for FrameNo {
    ghost from_gives = { λ _ e. e ≡ NoMemory };

    fn from(_: AllocError) -> Self {
        FrameNo::NoMemory
    }
}

impl<T: Drop> From<AllocFailed<T>> for FrameNo {
    ghost from_gives = { λ _ e. e ≡ NoMemory };

    fn from(_: AllocFailed<T>) -> Self {
        FrameNo::NoMemory
    }
}
