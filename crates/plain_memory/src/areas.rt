// SPDX-License-Identifier: Apache-2.0
//! The regions of a memory with their bytes, and which of them has an address.
ghost use Rattle.std.specs.Prelude.{◌≡◌, ℕ, ◌+◌, ◌/◌, ◌%◌, ◌<◌, ◌≤◌, true, false, map, length, slice_index_or, IfSome, IsSome, IsNone};
ghost use Rattle.std.specs.List.{list_any};
ghost use Rattle.std.specs.List.Sorted.{IsNonDecreasingBy};
ghost use Rattle.sh_types.specs.declared.code.Region.{Region};
ghost use Rattle.sh_machines.specs.Memory.{first_byte, first_word, is_in_region, readable};
ghost use Rattle.sh_machines.specs.Need.{part_of};
ghost use Rattle.plain_memory.specs.Access.{IsWidth};
ghost use Rattle.plain_memory.specs.Changed.{Stores, PutsNumber};
ghost use Rattle.plain_memory.specs.Laid.{Laid, HasAt, allows, bare, usable};

use crate::area::Area;
use std::marker::Model;

/// How many addresses a page has.
const PAGE: u64 = 0x1000;

/// The regions in rising order, and for each page of addresses the number of a region to try first.
#[derive(Debug, Drop)]
pub struct Areas {
    areas: Vec<Area>,
    near: Vec<u32>,
}

impl Model for Areas {
    ghost use Rattle.std.specs.Prelude.{List};
    ghost use Rattle.sh_types.specs.declared.code.Region.{Region};
    ghost use Rattle.plain_memory.specs.Laid.{Laid};

    ghost Value = { List Region };

    ghost view = { λ a. a.areas.items };

    ghost invariant = { λ a. Laid 0 a.areas.items };
}

/// How many of the regions end at an address or below.
fn ended_by(areas: &[Area], address: u64) -> usize
    requires { IsNonDecreasingBy (λ (r : Region). r.end) areas.now }
    ensures bound { result ≤ length areas.now }
    ensures below { (k : ℕ) (d : Region) → k < result → (slice_index_or areas.now k d).end ≤ address }
    ensures above { (k : ℕ) (d : Region) → result ≤ k → k < length areas.now → address < (slice_index_or areas.now k d).end }
{
    areas.partition_point(|area| area.ends_by(address))
}

impl Areas {
    /// Regions in rising order, and where to look first.
    pub fn from_parts(areas: Vec<Area>, near: Vec<u32>) -> Areas
        requires { Laid 0 areas.items }
        ensures { result ≡ areas.items }
    {
        Areas { areas, near }
    }

    /// The regions are in rising order. It does nothing.
    pub fn laid(&self)
        ensures { Laid 0 self.now }
    {
        let _ = &self.areas;
    }

    /// The number of the region to try first for an address. It may be none, or the wrong one.
    #[inline(always)]
    fn hint(&self, address: u64) -> usize {
        let page = (address / PAGE) as usize;
        if page < self.near.len() {
            self.near[page] as usize
        } else {
            0
        }
    }

    /// Whether the region with this number has an address.
    fn has_at(&self, index: usize, address: u64) -> bool
        ensures yes { result ≡ true → HasAt self.now index address }
        ensures no { result ≡ false → (d : Region) → index < length self.now → is_in_region address (slice_index_or self.now index d) ≡ false }
    {
        if index >= self.areas.len() {
            return false;
        }
        self.areas[index].has(address)
    }

    /// The number of the region with an address.
    #[cold]
    #[inline(never)]
    fn search(&self, address: u64) -> Option<usize>
        ensures some { IfSome result (λ k. HasAt self.now k address) }
        ensures none { IsNone result → list_any (is_in_region address) self.now ≡ false }
    {
        let index = ended_by(self.areas.as_slice(), address);
        if self.has_at(index, address) {
            return Some(index);
        }
        None
    }

    /// The number of the region with an address, which the hint may tell.
    fn find(&self, address: u64) -> Option<usize>
        ensures some { IfSome result (λ k. HasAt self.now k address) }
        ensures none { IsNone result → list_any (is_in_region address) self.now ≡ false }
    {
        let index = self.hint(address);
        if self.has_at(index, address) {
            return Some(index);
        }
        self.search(address)
    }

    /// The byte at an address, 0 where there is none.
    pub fn byte(&self, address: u64) -> u8
        ensures is { result ≡ first_byte self.now address }
        ensures part { result ≡ part_of address 1 (first_word self.now (address / 8)) }
    {
        let found = self.find(address);
        let _ = &self.areas;
        match found {
            Some(index) => self.areas[index].byte(address),
            None => 0,
        }
    }

    /// How many bytes from an address on one region has that can be read, or written where that is asked.
    fn usable_from(&self, address: u64, writes: bool) -> u64
        ensures none { result ≡ 0 → list_any (usable writes address) self.now ≡ false }
        ensures each { (x : ℕ) → address ≤ x → x < address + result → list_any (usable writes x) self.now ≡ true }
        ensures low { 0 < result → address + result ≤ 0x40000000 }
    {
        match self.find(address) {
            Some(index) => self.areas[index].rest(address, writes),
            None => 0,
        }
    }

    /// Whether all of the bytes from an address on can be read, or written where that is asked.
    pub fn covers(&self, address: u64, length: u64, writes: bool) -> bool
        ensures is { result ≡ allows writes (map bare self.now) address length }
        ensures low { result ≡ true → 0 < length → address + length ≤ 0x40000000 }
    {
        let mut at = address;
        let mut left = length;
        while left > 0 {
            let here = self.usable_from(at, writes);
            if here == 0 {
                return false;
            }
            if left <= here {
                return true;
            }
            at += here;
            left -= here;
        }
        true
    }

    /// Bytes that can be read end at or below 0x4000_0000. It does nothing.
    pub fn reads_low(&self, address: u64, length: u64)
        requires readable { readable (map bare self.now) address length ≡ true }
        requires some { 0 < length }
        ensures { address + length ≤ 0x40000000 }
    {
        let _ = &self.areas;
    }

    /// The number of `width` bytes, where the hint tells the region that has them all.
    #[inline(always)]
    pub fn load_near(&self, address: u64, width: u8, writes: bool) -> Option<u64>
        requires width { IsWidth width }
        requires aligned { address % width ≡ 0 }
        ensures value { IfSome result (λ v. v ≡ part_of address width (first_word self.now (address / 8))) }
        ensures allows { IsSome result → allows writes (map bare self.now) address width ≡ true }
    {
        let index = self.hint(address);
        if index >= self.areas.len() {
            return None;
        }
        let area = &self.areas[index];
        if !area.serves(address, width, writes) {
            return None;
        }
        Some(area.number(address, width))
    }

    /// Puts the low bytes of a number, where the hint tells the region that has them all. It says whether it did.
    #[inline(always)]
    pub fn store_near(&mut self, address: u64, width: u8, value: u64) -> bool
        requires width { IsWidth width }
        requires aligned { address % width ≡ 0 }
        ensures done { result ≡ true → Stores self.old self.new address width value }
        ensures left { result ≡ false → self.new ≡ self.old }
    {
        let index = self.hint(address);
        if index >= self.areas.len() {
            return false;
        }
        if !self.areas[index].serves(address, width, true) {
            return false;
        }
        self.areas[index].put(address, width, value);
        true
    }

    /// A byte of a region is replaced.
    pub fn put_byte(&mut self, address: u64, byte: u8)
        requires { list_any (is_in_region address) self.old ≡ true }
        ensures puts { PutsNumber self.old self.new address 1 byte }
        ensures low { address < 0x40000000 }
    {
        let Some(index) = self.find(address) else {
            return;
        };
        self.areas[index].put(address, 1, u64::from(byte));
    }
}
