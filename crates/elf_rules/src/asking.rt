// SPDX-License-Identifier: Apache-2.0
//! What the rules ask of the parts of a file.
ghost use Rattle.std.specs.Prelude.{◌≡◌, IfOk, IsTrue, filter};
ghost use Rattle.elf_rules.specs.Elf as elf;
ghost use Rattle.elf_rules.specs.ElfRules as rules;

use crate::elf::{Head, Segment};
use sh_types::Section;
use std::alloc::{AllocError, Global};

const SHF_ALLOC: u64 = 2;

const SHF_EXECINSTR: u64 = 4;

/// Whether code stands in the section: SHF_ALLOC, SHF_EXECINSTR and a size (System V gABI, "Sections").
pub fn is_code(head: &Head) -> bool
    ensures { result ≡ elf.is_code head.now }
{
    head.flags & SHF_ALLOC != 0 && head.flags & SHF_EXECINSTR != 0 && head.size != 0
}

/// Whether an address is one of the code in the section.
#[tactic(auto, unfolding(crate::specs::ElfRules::runs_at))]
pub fn runs_at(address: u64, section: &Section) -> bool
    ensures runs { result ≡ rules.runs_at address section.now }
    ensures code { IsTrue result → IsTrue section.now.executable }
{
    section.executable
        && section.start <= address
        && u128::from(address) < u128::from(section.start) + u128::from(section.size)
}

/// The segments that take memory, in their order. An error is want of memory.
pub fn with_memory(alloc: Global, segments: &[Segment]) -> Result<Vec<Segment>, AllocError>
    ensures { IfOk result (λ found. found.items ≡ filter rules.has_memory segments.now) }
{
    segments
        .iter()
        .filter(|segment| segment.size > 0)
        .copied()
        .collect(alloc)
}
