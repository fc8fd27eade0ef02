// SPDX-License-Identifier: Apache-2.0
//! A memory at first.
ghost use Rattle.std.specs.Prelude.{◌≡◌, ℕ, ◌<◌, IfOk, length, slice_index, slice_index_or};
ghost use Rattle.sh_types.specs.declared.code.Region.{Region};
ghost use Rattle.sh_machines.specs.Memory.{first_word, readable as readable_of, writable as writable_of};
ghost use Rattle.sh_machines.specs.Unmoved.{Number};
ghost use Rattle.plain_memory.specs.Laid.{AreApart, AreFull, AreLow};
ghost use Rattle.plain_memory.specs.Plain.{contents_of, regions_of};

use crate::area::Area;
use crate::areas::Areas;
use crate::memory::PlainMemory;
use crate::returns::Returns;
use sh_types::{Items, NoMemory, Region};
use std::alloc::{AllocError, Global};

/// How many pages of addresses there are below 0x4000_0000.
const PAGES: usize = 0x4_0000;

/// The regions, each with the bytes that it holds.
fn copied(alloc: Global, regions: &[Region]) -> Result<Vec<Area>, AllocError>
    ensures is { IfOk result (λ v. v.items ≡ regions.now) }
    ensures small { IfOk result (λ v. (k : ℕ) (d : Region) → k < length v.items → (i : ℕ) → slice_index (slice_index_or v.items k d).bytes i < 256) }
{
    let mut areas = Vec::with_capacity(alloc, regions.len())?;
    for region in regions {
        areas.push(Area::new(alloc, region)?)?;
    }
    Ok(areas)
}

/// The pages of a region's addresses get its number.
fn mark(near: &mut [u32], region: &Region, number: u32) {
    if region.start >= region.end {
        return;
    }
    for page in region.start / 0x1000..(region.end - 1) / 0x1000 + 1 {
        if page < near.len() as u64 {
            near[page as usize] = number;
        }
    }
}

/// For each page of addresses the number of a region that has bytes in it, else 0.
fn hints(alloc: Global, regions: &[Region]) -> Result<Vec<u32>, AllocError> {
    let mut near = vec![in alloc; 0u32; PAGES]?;
    let mut number = 0u32;
    for region in regions {
        mark(&mut near, region, number);
        number = number.wrapping_add(1);
    }
    Ok(near)
}

/// The regions with their bytes, and where to look first.
fn areas(alloc: Global, regions: &[Region]) -> Result<Areas, NoMemory>
    requires low { AreLow regions.now }
    requires apart { AreApart regions.now }
    requires full { AreFull regions.now }
    ensures { IfOk result (λ a. a ≡ regions.now) }
{
    let areas = copied(alloc, regions)?;
    let near = hints(alloc, regions)?;
    Ok(Areas::from_parts(areas, near))
}

impl PlainMemory {
    /// The memory of these regions, with the bytes that they hold and no return word.
    pub fn new(alloc: Global, regions: &Items<Region>) -> Result<PlainMemory, NoMemory>
        requires low { AreLow regions.now }
        requires apart { AreApart regions.now }
        requires full { AreFull regions.now }
        ensures contents { IfOk result (λ m. (w : ℕ) → contents_of m w ≡ Number (first_word regions.now w)) }
        ensures readable { IfOk result (λ m. (a n : ℕ) → readable_of (regions_of m) a n ≡ readable_of regions.now a n) }
        ensures writable { IfOk result (λ m. (a n : ℕ) → writable_of (regions_of m) a n ≡ writable_of regions.now a n) }
    {
        let areas = areas(alloc, regions.as_slice())?;
        Ok(PlainMemory {
            areas,
            returns: Returns::new(alloc),
        })
    }
}
