// SPDX-License-Identifier: Apache-2.0
//! How much memory a file takes.
ghost use Rattle.std.specs.Prelude.{◌≡◌, IfOk};
ghost use Rattle.elf_rules.specs.Bindable.{IsBindable, mapped_by};
ghost use Rattle.elf_rules.specs.Elf.{segments_of};

use crate::limits::mapped_by;
use elf_read::read_elf;
use elf_rules::ElfFault;
use sh_types::NoMemory;
use std::alloc::Global;

/// The bytes of a file's PT_LOAD segments in memory (System V gABI, "Program Header": p_memsz). Err only
/// where memory is refused.
pub fn mapped_bytes(alloc: Global, bytes: &[u8]) -> Result<u64, NoMemory>
    requires { IsBindable bytes.now }
    ensures { IfOk result (λ mapped. mapped ≡ mapped_by (segments_of bytes.now)) }
{
    match read_elf(alloc, bytes) {
        Ok(elf) => Ok(mapped_by(elf.segments.as_slice())),
        Err(ElfFault::NoMemory) => Err(NoMemory),
        Err(ElfFault::Rule { .. }) => unreachable!(),
    }
}
