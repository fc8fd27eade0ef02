// SPDX-License-Identifier: Apache-2.0
//! The loads of a command.
ghost use Rattle.std.specs.Prelude.{List, ℕ, IfOk, OnErr};
ghost use Rattle.guest_dues.specs.declared.due.Due.{Due};
ghost use Rattle.cli_rows.specs.Rows.{Row, Load, with_input};
ghost use Rattle.shuf_cli.specs.Asked.{Gives, GivesInput, Stopped};

use crate::FileOr;
use cli_rows::{FILE_LIMIT, too_long, unreadable};
use sh_base::{FileFault, Files};
use sh_types::{Bytes, Name, NoMemory};
use std::alloc::Global;

/// Loads a file of at most so many bytes. A line is due in place of one that is longer or cannot be read.
pub fn load_file<F: Files>(
    alloc: Global,
    name: &str,
    limit: u64,
    files: &mut F,
) -> Result<FileOr, NoMemory>
    ensures gives { IfOk result (λ file. Gives name.now limit (record { held = F.held files.old; faults = F.faults files.old; answered = F.answered files.old })
        (record { held = F.held files.new; faults = F.faults files.new; answered = F.answered files.new }) file) }
    ensures memory { OnErr result ((next : List ℕ → Row) → Stopped (Load name.now limit next) (record { held = F.held files.old; faults = F.faults files.old; answered = F.answered files.old })
        (record { held = F.held files.new; faults = F.faults files.new; answered = F.answered files.new })) }
{
    match files.load(name, limit) {
        Ok(file) => {
            if file.len() as u64 > limit {
                Ok(FileOr::Instead(too_long(alloc, name, limit)?))
            } else {
                Ok(FileOr::File(file))
            }
        }
        Err(FileFault::Failed) => Ok(FileOr::Instead(unreadable(alloc, name)?)),
        Err(FileFault::NoMemory) => Err(NoMemory),
    }
}

/// The input of a guest: what the file of this name holds, or nothing where there is no name.
pub fn load_input<F: Files>(
    alloc: Global,
    name: &Option<Name>,
    files: &mut F,
) -> Result<FileOr, NoMemory>
    ensures gives { IfOk result (λ input. GivesInput name.now (record { held = F.held files.old; faults = F.faults files.old; answered = F.answered files.old })
        (record { held = F.held files.new; faults = F.faults files.new; answered = F.answered files.new }) input) }
    ensures memory { OnErr result ((made : List ℕ → Due) → Stopped (with_input name.now made) (record { held = F.held files.old; faults = F.faults files.old; answered = F.answered files.old })
        (record { held = F.held files.new; faults = F.faults files.new; answered = F.answered files.new })) }
{
    match name {
        None => Ok(FileOr::File(Bytes::new(alloc))),
        Some(name) => load_file(alloc, name.as_str(), FILE_LIMIT, files),
    }
}
