// SPDX-License-Identifier: Apache-2.0
//! A region with its bytes as they stand.
ghost use Rattle.std.specs.Prelude.{◌≡◌, ℕ, ◌+◌, ◌-◌, ◌*◌, ◌%◌, ◌^◌, ◌<◌, ◌≤◌, ◌&&◌, nat_le, true, if◌then◌else◌, IfOk, length, slice_index};
ghost use Rattle.sh_machines.specs.Memory.{bytes_number, is_in_region};
ghost use Rattle.plain_memory.specs.Access.{IsWidth};
ghost use Rattle.plain_memory.specs.Changed.{PutsAt};
ghost use Rattle.plain_memory.specs.Laid.{IsFull, bare};

use crate::numbers::{number_at, put_at};
use sh_types::Region;
use std::alloc::{AllocError, Global};
use std::marker::Model;

/// Bytes at addresses from `start` up to `end`.
#[derive(Debug, Drop)]
pub struct Area {
    start: u64,
    end: u64,
    writable: bool,
    bytes: Vec<u8>,
}

impl Model for Area {
    ghost use Rattle.sh_types.specs.declared.code.Region.{Region};

    ghost Value = { Region };

    ghost view = { λ a. record { start = a.start; end = a.end; writable = a.writable; bytes = a.bytes.items } };
}

/// Bytes are below 256. It does nothing.
fn are_small(bytes: &[u8])
    ensures { (i : ℕ) → slice_index bytes.now i < 256 }
{
    let _ = bytes;
}

impl Area {
    /// A region with the bytes that it holds.
    pub fn new(alloc: Global, region: &Region) -> Result<Area, AllocError>
        ensures is { IfOk result (λ a. a ≡ region.now) }
        ensures small { IfOk result (λ a. (i : ℕ) → slice_index a.bytes i < 256) }
    {
        let bytes = region.bytes.as_slice();
        are_small(bytes);
        Ok(Area {
            start: region.start,
            end: region.end,
            writable: region.writable,
            bytes: Vec::from_slice(alloc, bytes)?,
        })
    }

    /// Whether it has an address.
    #[inline(always)]
    pub fn has(&self, address: u64) -> bool
        ensures { result ≡ is_in_region address self.now }
    {
        self.start <= address && address < self.end
    }

    /// Whether it ends at an address or below.
    pub fn ends_by(&self, address: u64) -> bool
        ensures { result ≡ nat_le self.now.end address }
    {
        self.end <= address
    }

    /// Whether `width` bytes from an address on lie in it, and can be written where that is asked.
    #[inline(always)]
    pub fn serves(&self, address: u64, width: u8, writes: bool) -> bool
        ensures start { result ≡ true → self.now.start ≤ address }
        ensures end { result ≡ true → address + width ≤ self.now.end }
        ensures writes { result ≡ true → writes ≡ true → self.now.writable ≡ true }
    {
        if address < self.start || self.end < address {
            return false;
        }
        if self.end - address < u64::from(width) {
            return false;
        }
        !writes || self.writable
    }

    /// How many bytes there are from an address on that can be read, or written where that is asked.
    pub fn rest(&self, address: u64, writes: bool) -> u64
        requires { is_in_region address self.now ≡ true }
        ensures { result ≡ (if writes then (if self.now.writable then self.now.end - address else 0) else self.now.end - address) }
    {
        if writes && !self.writable {
            0
        } else {
            self.end - address
        }
    }

    /// The byte at an address.
    pub fn byte(&self, address: u64) -> u8
        requires full { IsFull self.now }
        requires has { is_in_region address self.now ≡ true }
        ensures { result ≡ slice_index self.now.bytes (address - self.now.start) }
    {
        self.bytes[(address - self.start) as usize]
    }

    /// The number of `width` bytes from an address on.
    #[inline(always)]
    pub fn number(&self, address: u64, width: u8) -> u64
        requires width { IsWidth width }
        requires full { IsFull self.now }
        requires start { self.now.start ≤ address }
        requires end { address + width ≤ self.now.end }
        ensures { result ≡ bytes_number (λ k. slice_index self.now.bytes k) (address - self.now.start) width }
    {
        number_at(
            self.bytes.as_slice(),
            (address - self.start) as usize,
            width,
        )
    }

    /// Puts the low bytes of a number from an address on.
    #[inline(always)]
    pub fn put(&mut self, address: u64, width: u8, value: u64)
        requires width { IsWidth width }
        requires full { IsFull self.old }
        requires start { self.old.start ≤ address }
        requires end { address + width ≤ self.old.end }
        ensures puts { PutsAt self.old.bytes self.new.bytes (address - self.old.start) width (value % 2 ^ (8 * width)) }
        ensures bare { bare self.new ≡ bare self.old }
        ensures length { length self.new.bytes ≡ length self.old.bytes }
        ensures small { (i : ℕ) → slice_index self.new.bytes i < 256 }
    {
        put_at(
            &mut self.bytes,
            (address - self.start) as usize,
            width,
            value,
        );
    }
}
