// SPDX-License-Identifier: Apache-2.0
//! The pages of a guest's memory: eight bytes of data at 0x11000, and the first stack.
ghost use Rattle.std.specs.Prelude.{◌≡◌, ◌<◌};
ghost use Rattle.sh_machines.specs.Fine.{IsFine};

use elf_rules::LoadFault;
use guest_image::load_image;
use guest_mem::{GuestMem, MemFault, View};
use sample_files::{HOME, Sample, file_of};
use sh_types::{Image, NoMemory, Steps};
use std::alloc::Global;
use std::marker::Brand;
use std::sync::ledger::{Blank, Ledger};
use std::test::Fail;
use std::thread::Threads;

/// The pages of some addresses, a byte behind the data, and a load that passes the end of all addresses.
#[derive(Clone, Copy, Debug, PartialEq, Eq)]
struct Found {
    data: Option<u32>,
    code: Option<u32>,
    stack: Option<u32>,
    behind: Option<u8>,
    last: Result<u64, MemFault>,
}

fn look<L: Ledger>(memory: &mut GuestMem, blank: Blank) -> Found
    requires name { blank.name ≡ L.name }
    requires parts { blank.parts ≡ L.parts }
    requires some { 0 < blank.parts }
{
    let mut steps = Steps::<L>::new(blank);
    Found {
        data: memory.find_page(0x1_1008, &mut steps),
        code: memory.find_page(0x1_0000, &mut steps),
        stack: memory.find_page(0x3fff_ffff, &mut steps),
        behind: memory.byte(0x1_1008),
        last: memory.load(0xffff_ffff_ffff_fff8, 8),
    }
}

fn look_at(alloc: Global, image: &Image) -> Result<Found, NoMemory>
    requires fine { IsFine image.now }
{
    let mut memory = GuestMem::new(alloc, &image.regions)?;
    Ok(look::<Brand>(&mut memory, Blank::new(1)))
}

/// What is found in the memory of a file; None where it is refused.
fn look_in<R: Threads + Sync>(
    rt: &R,
    alloc: Global,
    file: &[u8],
) -> Result<Option<Found>, NoMemory> {
    match load_image(rt, alloc, file) {
        Ok(image) => Ok(Some(look_at(alloc, &image)?)),
        Err(LoadFault::NoMemory) => Err(NoMemory),
        Err(_) => Ok(None),
    }
}

#[test]
fn the_pages(rt: HostRuntime) -> Result<(), Fail> {
    let sample = Sample {
        entry: HOME,
        functions: &[("start", 2)],
        code: &[0x05d0_0893, 0x0000_0073],
        data: b"eight by",
    };
    let file = file_of(rt.alloc(), &sample)?;
    let found = look_in(&rt, rt.alloc(), &file)?;
    let want = Found {
        data: Some(0x11),
        code: None,
        stack: Some(0x3_ffff),
        behind: None,
        last: Err(MemFault::Fault),
    };
    assert_eq!(rt; found, Some(want));
    Ok(())
}
