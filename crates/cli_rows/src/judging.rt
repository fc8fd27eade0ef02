// SPDX-License-Identifier: Apache-2.0
//! Whether a file is accepted.
ghost use Rattle.std.specs.Prelude.{IfOk};
ghost use Rattle.cli_rows.specs.Judged.{IsJudged};

use crate::lines::refused;
use elf_rules::LoadFault;
use guest_dues::Due;
use guest_image::load_image;
use sh_types::{Image, NoMemory};
use std::alloc::Global;
use std::thread::Threads;

/// The image of a file that is accepted, or what is due where it is refused.
#[derive(Drop)]
pub enum Judged {
    Accepted(Image),
    Refused(Due),
}

/// Judges a file. Err only where memory is refused.
pub fn judge<R: Threads + Sync>(rt: &R, alloc: Global, file: &[u8]) -> Result<Judged, NoMemory>
    ensures { IfOk result (IsJudged file.now) }
{
    match load_image(rt, alloc, file) {
        Ok(image) => Ok(Judged::Accepted(image)),
        Err(LoadFault::NoMemory) => Err(NoMemory),
        Err(fault) => Ok(Judged::Refused(refused(alloc, fault)?)),
    }
}
