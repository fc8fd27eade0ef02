// SPDX-License-Identifier: Apache-2.0
//! Why a source is refused.
ghost use Rattle.std.specs.Prelude.{◌≡◌};
ghost use Rattle.asm_text.specs.declared.faults.AsmFault.TheVariants as fault;

use sh_types::NoMemory;
use std::alloc::{AllocError, AllocFailed};

/// The rules of the source language. Text: a byte that is no printable ASCII character, tab or line feed. Form: no such
/// statement, or in the wrong place. Name: no such name. Twice: a name defined again in its scope, or a second `.entry`.
/// Range: an operand, a distance or a part out of range. Entry: no `.entry`, or it names no function. Open: a function
/// without its end.
#[derive(Clone, Copy, Debug, PartialEq, Eq)]
pub enum AsmRule {
    Text,
    Form,
    Name,
    Twice,
    Range,
    Entry,
    Open,
}

/// A line and the rule that it breaks.
#[derive(Clone, Copy, Debug, PartialEq, Eq)]
pub struct LineFault {
    pub line: u32,
    pub rule: AsmRule,
}

/// Why there is no object: memory was refused, or the line breaks the rule.
#[derive(Clone, Copy, Debug, PartialEq, Eq)]
pub enum AsmFault {
    NoMemory,
    Line { line: u32, rule: AsmRule },
}

impl From<AllocError> for AsmFault {
    ghost from_gives = { λ _ e. e ≡ fault.NoMemory };

    fn from(_: AllocError) -> Self {
        AsmFault::NoMemory
    }
}

impl<T: Drop> From<AllocFailed<T>> for AsmFault {
    ghost from_gives = { λ _ e. e ≡ fault.NoMemory };

    fn from(_: AllocFailed<T>) -> Self {
        AsmFault::NoMemory
    }
}

impl From<NoMemory> for AsmFault {
    ghost from_gives = { λ _ e. e ≡ fault.NoMemory };

    fn from(_: NoMemory) -> Self {
        AsmFault::NoMemory
    }
}
