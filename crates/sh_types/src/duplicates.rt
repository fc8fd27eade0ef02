// SPDX-License-Identifier: Apache-2.0
//! Copies of what a file gave, each equal to the original.
ghost use Rattle.std.specs.Prelude.{◌≡◌, IfOk};

use crate::bytes::Bytes;
use crate::code::{FrameState, FrameTable, Function, Image, Pair, Region, Site};
use crate::items::Items;
use crate::names::SymbolName;
use crate::runs::NoMemory;
use std::alloc::Global;

/// What can be had once more, where there is memory for it.
pub trait Duplicate: Sized {
    /// An equal one. Err only where memory is refused.
    fn duplicate(&self, alloc: Global) -> Result<Self, NoMemory>
        ensures { IfOk result (λ copy. copy ≡ self.now) };
}

impl Duplicate for u32 {
    fn duplicate(&self, _alloc: Global) -> Result<u32, NoMemory> {
        Ok(*self)
    }
}

impl Duplicate for u64 {
    fn duplicate(&self, _alloc: Global) -> Result<u64, NoMemory> {
        Ok(*self)
    }
}

impl Duplicate for Pair {
    fn duplicate(&self, _alloc: Global) -> Result<Pair, NoMemory> {
        Ok(*self)
    }
}

impl Duplicate for Site {
    fn duplicate(&self, _alloc: Global) -> Result<Site, NoMemory> {
        Ok(*self)
    }
}

impl Duplicate for Option<FrameState> {
    fn duplicate(&self, _alloc: Global) -> Result<Option<FrameState>, NoMemory> {
        Ok(*self)
    }
}

impl Duplicate for Bytes {
    fn duplicate(&self, alloc: Global) -> Result<Bytes, NoMemory> {
        let copy = Bytes::from_slice(alloc, self.as_slice())?;
        Ok(copy)
    }
}

impl<T: Duplicate + Drop> Duplicate for Items<T> {
    fn duplicate(&self, alloc: Global) -> Result<Items<T>, NoMemory> {
        let mut copy = Vec::with_capacity(alloc, self.len())?;
        for item in self.as_slice() {
            copy.push(item.duplicate(alloc)?)?;
        }
        Ok(Items::from_vec(copy))
    }
}

impl Duplicate for FrameTable {
    fn duplicate(&self, alloc: Global) -> Result<FrameTable, NoMemory> {
        let rows = self.rows.duplicate(alloc)?;
        Ok(FrameTable { rows })
    }
}

impl Duplicate for Function {
    fn duplicate(&self, _alloc: Global) -> Result<Function, NoMemory> {
        let name = self.name.share()?;
        Ok(Function {
            home: self.home,
            size: self.size,
            name,
        })
    }
}

impl Duplicate for Region {
    fn duplicate(&self, alloc: Global) -> Result<Region, NoMemory> {
        let bytes = self.bytes.duplicate(alloc)?;
        Ok(Region {
            start: self.start,
            end: self.end,
            writable: self.writable,
            bytes,
        })
    }
}

impl Image {
    /// An equal image, which shares the names of functions and no other memory. Err only where memory is refused.
    pub fn duplicate(&self, alloc: Global) -> Result<Image, NoMemory>
        ensures { IfOk result (λ copy. copy ≡ self.now) }
    {
        let functions = self.functions.duplicate(alloc)?;
        let words = self.words.duplicate(alloc)?;
        let sites = self.sites.duplicate(alloc)?;
        let frames = self.frames.duplicate(alloc)?;
        let literals = self.literals.duplicate(alloc)?;
        let rows = self.rows.duplicate(alloc)?;
        let labels = self.labels.duplicate(alloc)?;
        let regions = self.regions.duplicate(alloc)?;
        Ok(Image {
            functions,
            entry: self.entry,
            words,
            sites,
            frames,
            literals,
            rows,
            labels,
            regions,
        })
    }
}
