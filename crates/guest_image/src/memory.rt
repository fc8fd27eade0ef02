// SPDX-License-Identifier: Apache-2.0
//! How much memory an accepted file takes.
ghost use Rattle.std.specs.Prelude.{◌≡◌, IfOk};
ghost use Rattle.elf_rules.specs.Bindable.{mapped_by};
ghost use Rattle.elf_rules.specs.Elf.{segments_of};
ghost use Rattle.image_rules.specs.Framed.{Accepts};

use sh_types::NoMemory;
use std::alloc::Global;

/// The bytes of an accepted file's PT_LOAD segments in memory (System V gABI, "Program Header": p_memsz). Err only
/// where memory is refused.
#[tactic(auto, unfolding(image_rules::specs::Framed::refusal_of), using(crate::proofs::Accepting::first_none))]
pub fn mapped_bytes(alloc: Global, bytes: &[u8]) -> Result<u64, NoMemory>
    requires { Accepts bytes.now }
    ensures { IfOk result (λ mapped. mapped ≡ mapped_by (segments_of bytes.now)) }
{
    image_binding::mapped_bytes(alloc, bytes)
}
