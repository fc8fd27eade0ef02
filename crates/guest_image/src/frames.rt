// SPDX-License-Identifier: Apache-2.0
//! The rows of all functions.
ghost use Rattle.std.specs.Prelude.{◌≡◌, ◌<◌, ◌^◌, IfOk, Some, length};
ghost use Rattle.std.specs.List.{AllZip, range_with_len};
ghost use Rattle.elf_rules.specs.Bindable.{Passes, Stops};
ghost use Rattle.image_rules.specs.Framed.{answer_in, first_refused, frames_from, rows_in, walk_refusal};
ghost use Rattle.guest_image.specs.Walks.{IsFrame, IsFrameOf, IsWalkable, all_found, fault_of as fault_by, first_fault};

use crate::records::{Refusal, record_refusals};
use crate::threads::at_each;
use elf_rules::LoadFault;
use frame_tables::{FrameNo, frames};
use image_binding::BoundFile;
use rayon::prelude::*;
use sh_types::{FrameTable, Function, Image, Items};
use std::alloc::{AllocError, Global};
use std::thread::Threads;

// A thread walks no fewer functions.
const FEWEST: usize = 16;

/// The rows that the walk of a function ends with, or its refusal.
fn walked(alloc: Global, image: &Image, func: usize) -> Result<FrameTable, FrameNo>
    requires walkable { IsWalkable image.now }
    requires func { func < length image.now.functions }
    ensures { IsFrame (walk_refusal (answer_in image.now func)) (rows_in (answer_in image.now func)) result }
{
    let words = image.words.as_slice();
    let sites = image.sites.as_slice();
    let entry = image.entry;
    frames(
        alloc,
        func as u32,
        entry,
        words[func].as_slice(),
        &sites[func],
        &image.labels,
    )
}

/// The rows of a function, or its refusal: that by a record, and else that of its walk.
fn frame(
    alloc: Global,
    image: &Image,
    refused: &[Option<Refusal>],
    func: usize,
) -> Result<FrameTable, FrameNo>
    requires walkable { IsWalkable image.now }
    requires refused { length refused.now ≡ length image.now.functions }
    requires func { func < length image.now.functions }
    ensures { IsFrameOf image.now refused.now func result }
{
    match refused[func] {
        None => walked(alloc, image, func),
        Some((off, rule)) => Err(FrameNo::Refused { off, rule }),
    }
}

/// The rows of each function, or its refusal, from as many threads as there are processors.
fn each_frame<R: Threads + Sync>(
    rt: &R,
    alloc: Global,
    image: &Image,
    refused: &[Option<Refusal>],
) -> Result<Vec<Result<FrameTable, FrameNo>>, AllocError>
    requires walkable { IsWalkable image.now }
    requires refused { length refused.now ≡ length image.now.functions }
    ensures { IfOk result (λ found. AllZip (IsFrameOf image.now refused.now) (range_with_len 0 (length image.now.functions)) found.items) }
{
    at_each(
        rt,
        alloc,
        (0..image.functions.len())
            .into_par_iter()
            .with_min_len(FEWEST),
        |func: usize| -> Result<FrameTable, FrameNo>
            requires { IsWalkable image.now × (length refused.now ≡ length image.now.functions) × (func < length image.now.functions) }
            ensures { IsFrameOf image.entry.now refused.entry.now func result }
        { frame(alloc, image, refused, func) },
    )
}

/// Why there is no image, where a function has no rows.
fn fault_of(func: u32, function: &Function, no: FrameNo) -> LoadFault
    ensures { Stops result (Some (fault_by func function.now no)) }
{
    match no {
        FrameNo::NoMemory => LoadFault::NoMemory,
        FrameNo::Refused { off, rule } => match function.name.share() {
            Err(_) => LoadFault::NoMemory,
            Ok(name) => LoadFault::Refused {
                func,
                name,
                off,
                rule,
            },
        },
    }
}

/// The rows that were found, or the first of the functions that has none.
fn gathered(
    alloc: Global,
    functions: &[Function],
    found: Vec<Result<FrameTable, FrameNo>>,
) -> Result<Items<FrameTable>, LoadFault>
    requires few { length functions.now < 2 ^ 32 }
    requires many { length found.items ≡ length functions.now }
    ensures { Passes result (first_fault 0 functions.now found.items) (λ frames. all_found frames ≡ found.items) }
{
    let mut frames = Vec::new(alloc);
    for one in found {
        let func = frames.len();
        match one {
            Err(no) => return Err(fault_of(func as u32, &functions[func], no)),
            Ok(frame) => frames.push(frame)?,
        }
    }
    Ok(Items::from_vec(frames))
}

/// The rows of each function of a bound image, or the first function that is refused: by a record, or else by its walk.
/// Functions are walked side by side.
pub fn all_frames<R: Threads + Sync>(
    rt: &R,
    alloc: Global,
    bound: &BoundFile,
) -> Result<Items<FrameTable>, LoadFault>
    requires { IsWalkable bound.now.image }
    ensures { Passes result (first_refused bound.now.image bound.now.relocs 0 bound.now.image.functions) (λ frames. frames ≡ frames_from bound.now.image 0 bound.now.image.functions) }
{
    let image = &bound.image;
    let functions = image.functions.as_slice();
    let refused = record_refusals(alloc, functions, image.entry, bound.relocs.as_slice())?;
    let found = each_frame(rt, alloc, image, &refused)?;
    gathered(alloc, functions, found)
}
