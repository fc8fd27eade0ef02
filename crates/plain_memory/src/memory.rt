// SPDX-License-Identifier: Apache-2.0
//! The memory of the machine that never moves.
ghost use Rattle.std.specs.Prelude.{◌≡◌, ◌/◌, ◌%◌, ◌<◌, true};
ghost use Rattle.sh_machines.specs.Need.{with_part};
ghost use Rattle.sh_machines.specs.Unmoved.{Number, Return};
ghost use Rattle.plain_memory.specs.Access.{IsSaved, IsWidth, after_access, checked, loaded, number_in, restore_of, store_of};
ghost use Rattle.plain_memory.specs.Laid.{allows};
ghost use Rattle.plain_memory.specs.Plain.{contents_of, regions_of};

use crate::areas::Areas;
use crate::contents::{AccessFault, SaveFault};
use crate::numbers::is_aligned;
use crate::returns::{Returns, SavedReturn};
use sh_types::CodeRef;
use std::marker::Model;

/// The bytes of regions, and the words among them that are return words, whose bytes are zero.
#[derive(Debug, Drop)]
pub struct PlainMemory {
    pub(crate) areas: Areas,
    pub(crate) returns: Returns,
}

impl Model for PlainMemory {
    ghost use Rattle.plain_memory.specs.Plain.{Plain, IsPlain};

    ghost Value = { Plain };

    ghost view = { λ m. record { areas = m.areas; returns = m.returns } };

    ghost invariant = { λ m. IsPlain m.areas m.returns };
}

impl PlainMemory {
    /// The bytes from an address on, as a number, where they can be read, or written where that is asked.
    #[inline(always)]
    pub(crate) fn read(&self, address: u64, width: u8, writes: bool) -> Result<u64, AccessFault>
        requires { IsWidth width }
        ensures { result ≡ checked (allows writes (regions_of self.now)) address width (loaded address width (contents_of self.now (address / 8))) }
    {
        if !is_aligned(address, width) {
            return Err(AccessFault::Misaligned);
        }
        if let Some(value) = self.areas.load_near(address, width, writes) {
            if self.returns.get(address / 8).is_some() {
                return Err(AccessFault::Leak);
            }
            return Ok(value);
        }
        self.read_far(address, width, writes)
    }

    /// The same, where several regions may have the bytes.
    #[cold]
    #[inline(never)]
    fn read_far(&self, address: u64, width: u8, writes: bool) -> Result<u64, AccessFault>
        requires width { IsWidth width }
        requires aligned { address % width ≡ 0 }
        ensures { result ≡ checked (allows writes (regions_of self.now)) address width (loaded address width (contents_of self.now (address / 8))) }
    {
        if !self.areas.covers(address, u64::from(width), writes) {
            return Err(AccessFault::Fault);
        }
        if self.returns.get(address / 8).is_some() {
            return Err(AccessFault::Leak);
        }
        Ok(self.areas.load_far(address, width))
    }

    /// Puts the low bytes of a number there.
    #[inline(always)]
    pub(crate) fn write(&mut self, address: u64, width: u8, value: u64) -> Result<(), AccessFault>
        requires { IsWidth width }
        ensures value { result ≡ store_of (regions_of self.old) address width (contents_of self.old (address / 8)) }
        ensures contents { contents_of self.new ≡ after_access result (contents_of self.old) (address / 8) (Number (with_part address width value (number_in (contents_of self.old (address / 8))))) }
        ensures regions { regions_of self.new ≡ regions_of self.old }
    {
        self.read(address, width, true)?;
        self.areas.store(address, width, value);
        Ok(())
    }

    /// The word becomes a return word of the hart, which leads there. Where memory is refused nothing changes.
    pub(crate) fn save_at(&mut self, address: u64, hart: u32, to: CodeRef) -> Result<(), SaveFault>
        ensures value { IsSaved result (store_of (regions_of self.old) address 8 (contents_of self.old (address / 8))) }
        ensures contents { contents_of self.new ≡ after_access result (contents_of self.old) (address / 8) (Return hart to) }
        ensures regions { regions_of self.new ≡ regions_of self.old }
    {
        self.read(address, 8, true)?;
        self.returns.put(address / 8, SavedReturn { hart, to })?;
        self.areas.laid();
        self.areas.store(address, 8, 0);
        Ok(())
    }

    /// Takes back where a return word of the hart leads, and leaves zero. A word that is none of the hart's is a leak.
    pub(crate) fn restore_at(&mut self, address: u64, hart: u32) -> Result<CodeRef, AccessFault>
        ensures value { result ≡ restore_of (regions_of self.old) address hart (contents_of self.old (address / 8)) }
        ensures contents { contents_of self.new ≡ after_access result (contents_of self.old) (address / 8) (Number 0) }
        ensures regions { regions_of self.new ≡ regions_of self.old }
    {
        let to = self.kept(address, hart)?;
        self.returns.take(address / 8);
        Ok(to)
    }

    /// Where a return word of the hart leads.
    fn kept(&self, address: u64, hart: u32) -> Result<CodeRef, AccessFault>
        ensures { result ≡ restore_of (regions_of self.now) address hart (contents_of self.now (address / 8)) }
    {
        if !is_aligned(address, 8) {
            return Err(AccessFault::Misaligned);
        }
        if !self.areas.covers(address, 8, false) {
            return Err(AccessFault::Fault);
        }
        match self.returns.get(address / 8) {
            Some(saved) if saved.hart == hart => Ok(saved.to),
            _ => Err(AccessFault::Leak),
        }
    }
}
