// SPDX-License-Identifier: Apache-2.0
//! Why a file is refused, and want of memory beside it.
ghost use Rattle.std.specs.Prelude.{◌≡◌};
ghost use Rattle.elf_rules.specs.declared.refusals.ElfFault.TheVariants as elf;
ghost use Rattle.elf_rules.specs.declared.refusals.SplitFault.TheVariants as split;
ghost use Rattle.elf_rules.specs.declared.refusals.LoadFault.TheVariants as load;

use sh_types::{NoMemory, Rule, SymbolName};
use std::alloc::{AllocError, AllocFailed};

/// The rules on a file's headers, tables, symbols and relocation records, in the order in which they are tested.
#[derive(Clone, Copy, Debug, PartialEq, Eq)]
pub enum ElfRule {
    Short,
    Magic,
    Class,
    Order,
    Version,
    Kind2,
    Machine,
    Flags,
    Tables,
    Dynamic,
    Segment,
    Code,
    Symbols,
    Start,
    NameAt,
    SectionAt,
    Total,
    Records,
    Undefined,
    Kind,
}

/// Why tables are not read: memory was refused, or this is the first rule that fails.
#[derive(Clone, Copy, Debug, PartialEq, Eq)]
pub enum ElfFault {
    NoMemory,
    Rule { rule: ElfRule },
}

impl From<AllocError> for ElfFault {
    ghost from_gives = { λ _ e. e ≡ elf.NoMemory };

    fn from(_: AllocError) -> Self {
        ElfFault::NoMemory
    }
}

impl<T: Drop> From<AllocFailed<T>> for ElfFault {
    ghost from_gives = { λ _ e. e ≡ elf.NoMemory };

    fn from(_: AllocFailed<T>) -> Self {
        ElfFault::NoMemory
    }
}

/// The rules on the functions that symbols give.
#[derive(Clone, Copy, Debug, PartialEq, Eq)]
pub enum SplitRule {
    Unaligned,
    Size,
    Overlap,
    EntryInside,
}

/// Why there are no functions: memory was refused, or the function with this home address breaks this rule.
#[derive(Clone, Copy, Debug, PartialEq, Eq)]
pub enum SplitFault {
    NoMemory,
    Rule { home: u64, rule: SplitRule },
}

impl From<AllocError> for SplitFault {
    ghost from_gives = { λ _ e. e ≡ split.NoMemory };

    fn from(_: AllocError) -> Self {
        SplitFault::NoMemory
    }
}

impl<T: Drop> From<AllocFailed<T>> for SplitFault {
    ghost from_gives = { λ _ e. e ≡ split.NoMemory };

    fn from(_: AllocFailed<T>) -> Self {
        SplitFault::NoMemory
    }
}

/// What is limited: the bytes of the segments in memory, the number of functions, and the bytes of code.
#[derive(Clone, Copy, Debug, PartialEq, Eq)]
pub enum LimitKind {
    Mapped,
    Functions,
    Code,
}

/// Why a file has no image: memory was refused, a rule on the file fails, a value is above its limit, a function breaks a
/// rule of splitting, the bytes at the place of a relocation record of this kind have other bits than the record asks for,
/// or the function with this number and name is refused at an offset, in bytes.
#[derive(Debug, Drop)]
pub enum LoadFault {
    NoMemory,
    Elf {
        rule: ElfRule,
    },
    Limit {
        kind: LimitKind,
        value: u64,
    },
    Split {
        home: u64,
        rule: SplitRule,
    },
    Mismatch {
        place: u64,
        kind: u32,
        found: u64,
        expected: u64,
    },
    Refused {
        func: u32,
        name: SymbolName,
        off: u32,
        rule: Rule,
    },
}

impl From<AllocError> for LoadFault {
    ghost from_gives = { λ _ e. e ≡ load.NoMemory };

    fn from(_: AllocError) -> Self {
        LoadFault::NoMemory
    }
}

impl<T: Drop> From<AllocFailed<T>> for LoadFault {
    ghost from_gives = { λ _ e. e ≡ load.NoMemory };

    fn from(_: AllocFailed<T>) -> Self {
        LoadFault::NoMemory
    }
}
