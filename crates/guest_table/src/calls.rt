// SPDX-License-Identifier: Apache-2.0
//! What the tests call of the library, over the first guest's file and under the seed of zeros.
ghost use Rattle.sh_types.specs.Image.{sizes_of};
ghost use Rattle.sh_types.specs.Sized.{IsSized};
ghost use Rattle.sh_machines.specs.Copy.{IsCopyable};
ghost use Rattle.sh_machines.specs.Fine.{IsFine};

use elf_rules::LoadFault;
use guest_image::load_image;
use sample_files::first_file;
use sh_types::{Bytes, FetchLog, Image, NoMemory};
use shuf_machine::{Machine, MachineNo, Origin};
use std::alloc::Global;
use std::thread::Threads;

/// A new machine of the file.
fn machine_of(alloc: Global, image: Image, file: Bytes) -> Result<Machine, NoMemory>
    requires fine { IsFine image }
    requires sized { IsSized (sizes_of image) }
    requires copyable { IsCopyable image }
{
    let origin = Origin {
        file,
        input: Bytes::new(alloc),
        seed: [0; 32],
    };
    Machine::new(alloc, image, origin)
}

/// Runs at most 100 instructions of a hart of a new machine, and answers how many.
fn run_new(machine: &mut Machine, hart: u32, log: &mut FetchLog) -> Result<u64, MachineNo> {
    if machine.count() > 0 {
        return Ok(0);
    }
    machine.run_direct(hart, 100, log)
}

/// The same of the first guest's machine; 0 where its file is refused.
pub fn run_first<R: Threads + Sync>(
    rt: &R,
    alloc: Global,
    hart: u32,
    log: &mut FetchLog,
) -> Result<u64, MachineNo> {
    let Ok(bytes) = first_file(alloc) else {
        return Err(MachineNo::NoMemory);
    };
    let file = Bytes::from_vec(bytes);
    match load_image(rt, alloc, file.as_slice()) {
        Ok(image) => match machine_of(alloc, image, file) {
            Ok(mut machine) => run_new(&mut machine, hart, log),
            Err(NoMemory) => Err(MachineNo::NoMemory),
        },
        Err(LoadFault::NoMemory) => Err(MachineNo::NoMemory),
        Err(_) => Ok(0),
    }
}
