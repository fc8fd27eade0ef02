// SPDX-License-Identifier: Apache-2.0
//! The copy of the first guest under the seed of zeros. Its words are from an independent program.
ghost use Rattle.std.specs.Prelude.{◌≡◌, IfOk};
ghost use Rattle.sh_types.specs.Image.{sizes_of};
ghost use Rattle.sh_types.specs.Sized.{IsSized};
ghost use Rattle.sh_machines.specs.Copy.{IsCopyable};

use code_copier::copy;
use code_eraser::erase;
use elf_rules::LoadFault;
use guest_image::load_image;
use layout_maker::{make_layout, recent_cells_are_counted};
use sample_files::first_file;
use sh_types::{CodeCopy, Image, NoMemory};
use std::alloc::{AllocError, Global};
use std::test::Fail;
use std::thread::Threads;

#[tactic(auto, unfolding(sh_types::specs::Image::sizes_of))]
fn sizes(alloc: Global, image: &Image) -> Result<Vec<u32>, AllocError>
    ensures { IfOk result (λ sizes. sizes.items ≡ sizes_of image.now) }
{
    image
        .functions
        .as_slice()
        .iter()
        .map(|function| function.size)
        .collect(alloc)
}

/// The copy of the first layout of the image.
fn first_copy(alloc: Global, image: &Image) -> Result<CodeCopy, NoMemory>
    requires sized { IsSized (sizes_of image.now) }
    requires copyable { IsCopyable image.now }
{
    recent_cells_are_counted();
    let sizes = sizes(alloc, image)?;
    let layout = make_layout(alloc, &sizes, &[0; 32], 1, &[])?;
    copy(alloc, image, &layout)
}

/// The same of a file; None where it is refused.
fn copy_of_file<R: Threads + Sync>(
    rt: &R,
    alloc: Global,
    file: &[u8],
) -> Result<Option<CodeCopy>, NoMemory> {
    match load_image(rt, alloc, file) {
        Ok(image) => Ok(Some(first_copy(alloc, &image)?)),
        Err(LoadFault::NoMemory) => Err(NoMemory),
        Err(_) => Ok(None),
    }
}

fn word_in(copy: &CodeCopy, address: u64) -> Option<u32> {
    let distance = address.checked_sub(copy.start)?;
    copy.words.as_slice().get((distance / 4) as usize).copied()
}

#[test]
fn the_first_copy(rt: HostRuntime) -> Result<(), Fail> {
    let file = first_file(rt.alloc())?;
    let found = copy_of_file(&rt, rt.alloc(), &file)?;
    let mut copy = found.expect(&rt, "the file is accepted");
    assert_eq!(rt; copy.start, 0x4760_0000);
    assert_eq!(rt; copy.words.len(), 262_144);
    assert_eq!(rt; word_in(&copy, 0x476b_ead0), Some(0x9a58_70ef), "the call");
    assert_eq!(rt; word_in(&copy, 0x476b_eaf0), Some(0), "behind the function");
    assert_eq!(rt; word_in(&copy, 0x4764_6474), Some(0x0030_0613));
    erase(&mut copy);
    assert!(rt; copy.words.as_slice().iter().all(|word| *word == 0));
    Ok(())
}
