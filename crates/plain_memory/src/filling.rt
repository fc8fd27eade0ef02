// SPDX-License-Identifier: Apache-2.0
//! Loads and stores that no single region serves, a byte after the other.
ghost use Rattle.std.specs.Prelude.{◌≡◌, ℕ, ◌+◌, ◌*◌, ◌/◌, ◌%◌, ◌<◌, ◌≤◌, true, map, length as length_of};
ghost use Rattle.std.specs.List.{list_any};
ghost use Rattle.sh_machines.specs.Memory.{bytes_number, first_byte, first_word, is_in_region};
ghost use Rattle.sh_machines.specs.Need.{part_of};
ghost use Rattle.plain_memory.specs.Access.{IsWidth};
ghost use Rattle.plain_memory.specs.Changed.{Fills, PutsBytes, Stores};
ghost use Rattle.plain_memory.specs.Laid.{allows, bare};

use crate::areas::Areas;
use crate::numbers::{number_at, put_at};

impl Areas {
    /// The number of `width` bytes from an address on.
    fn gather(&self, address: u64, width: u8) -> u64
        requires width { IsWidth width }
        requires low { address + width ≤ 0x40000000 }
        ensures { result ≡ bytes_number (first_byte self.now) address width }
    {
        let mut buffer = [0u8; 8];
        for k in 0..width {
            buffer[k as usize] = self.byte(address + u64::from(k));
        }
        number_at(&buffer, 0, width)
    }

    /// The number of `width` bytes, which several regions may have.
    #[cold]
    #[inline(never)]
    pub fn load_far(&self, address: u64, width: u8) -> u64
        requires width { IsWidth width }
        requires aligned { address % width ≡ 0 }
        requires low { address + width ≤ 0x40000000 }
        ensures { result ≡ part_of address width (first_word self.now (address / 8)) }
    {
        self.laid();
        self.gather(address, width)
    }

    /// Puts bytes from an address on, each in a region.
    fn put_all(&mut self, address: u64, bytes: &[u8])
        requires { (k : ℕ) → k < length_of bytes.now → list_any (is_in_region (address + k)) self.old ≡ true }
        ensures { PutsBytes self.old self.new address (length_of bytes.now) bytes.now }
    {
        let mut at = address;
        for byte in bytes {
            self.put_byte(at, *byte);
            at += 1;
        }
    }

    /// Puts bytes from an address on, where each can be written.
    pub fn fill(&mut self, address: u64, bytes: &[u8])
        requires { allows true (map bare self.old) address (length_of bytes.now) ≡ true }
        ensures { Fills self.old self.new address bytes.now }
    {
        self.laid();
        self.put_all(address, bytes);
    }

    /// Puts the low bytes of a number, which several regions may have.
    #[cold]
    #[inline(never)]
    fn store_far(&mut self, address: u64, width: u8, value: u64)
        requires width { IsWidth width }
        requires aligned { address % width ≡ 0 }
        requires writable { allows true (map bare self.old) address width ≡ true }
        ensures { Stores self.old self.new address width value }
    {
        let mut buffer = [0u8; 8];
        put_at(&mut buffer, 0, width, value);
        self.laid();
        self.put_all(address, &buffer[..width as usize]);
    }

    /// Puts the low bytes of a number, where each of the bytes can be written.
    #[inline(always)]
    pub fn store(&mut self, address: u64, width: u8, value: u64)
        requires width { IsWidth width }
        requires aligned { address % width ≡ 0 }
        requires writable { allows true (map bare self.old) address width ≡ true }
        ensures { Stores self.old self.new address width value }
    {
        if !self.store_near(address, width, value) {
            self.store_far(address, width, value);
        }
    }
}
