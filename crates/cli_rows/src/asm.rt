// SPDX-License-Identifier: Apache-2.0
//! What is due for an assembly of a source.
ghost use Rattle.std.specs.Prelude.{◌≡◌, ◌≤◌, IfOk, length};
ghost use Rattle.rv_asm.specs.Object.{object_of};
ghost use Rattle.rv_asm.specs.Passes.{fault_of};
ghost use Rattle.elf_write.specs.Written.{elf_file};
ghost use Rattle.cli_rows.specs.Dues.{store_due};
ghost use Rattle.cli_rows.specs.Limits.{file_limit};
ghost use Rattle.cli_rows.specs.Rows.{asm_due};
ghost use Rattle.cli_rows.specs.Written.{Writes};

use crate::lines::faulty;
use asm_text::AsmFault;
use elf_write::{assembled_objects_are_writable, write_elf};
use guest_dues::{Due, FileStore};
use rv_asm::assemble;
use sh_types::{Bytes, Name, NoMemory};
use std::alloc::Global;

/// The bytes of the file of a source.
pub fn written(alloc: Global, source: &[u8]) -> Result<Bytes, AsmFault>
    requires { length source.now ≤ file_limit }
    ensures { Writes result (fault_of source.now) (elf_file (object_of source.now)) }
{
    let object = assemble(alloc, source)?;
    assembled_objects_are_writable();
    Ok(write_elf(alloc, &object)?)
}

/// A store of these bytes is due.
fn stored(alloc: Global, target: &str, bytes: Bytes) -> Result<Due, NoMemory>
    ensures { IfOk result (λ due. due ≡ store_due target.now bytes) }
{
    let name = Name::from_str(alloc, target)?;
    Ok(Due {
        store: Some(FileStore { name, bytes }),
        out: None,
        report: None,
        status: 0,
        end: None,
        machine: None,
    })
}

/// What is due for an assembly of the source: the store of its executable under the target, or the line on a source that
/// has a fault. Err only where memory is refused.
pub fn of_asm(alloc: Global, target: &str, source: &[u8]) -> Result<Due, NoMemory>
    requires { length source.now ≤ file_limit }
    ensures { IfOk result (λ due. due ≡ asm_due target.now source.now) }
{
    match written(alloc, source) {
        Ok(bytes) => stored(alloc, target, bytes),
        Err(AsmFault::NoMemory) => Err(NoMemory),
        Err(AsmFault::Line { line, rule }) => faulty(alloc, line, rule),
    }
}
