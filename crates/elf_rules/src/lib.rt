// SPDX-License-Identifier: Apache-2.0
//! Parts of ELF-64 files, and why a file is refused; which files can be bound, by which rules, stands in specs/.
#![tactic(auto)]

mod asking;
mod elf;
pub mod kinds;
mod refusals;
mod relocs;
mod starts;

pub use asking::{is_code, runs_at, with_memory};
pub use elf::{Elf, Head, Program, RawSymbol, Segment, Span};
pub use refusals::{ElfFault, ElfRule, LimitKind, LoadFault, SplitFault, SplitRule};
pub use relocs::{Disagrees, Field, RawReloc};
pub use starts::Start;
