// SPDX-License-Identifier: Apache-2.0
//! The memory as the machine that never moves asks for it.
ghost use Rattle.plain_memory.specs.Plain.{contents_of, regions_of};

use crate::contents::{AccessFault, Contents, SaveFault};
use crate::memory::PlainMemory;
use sh_types::{CodeRef, NoMemory};

impl Contents for PlainMemory {
    ghost contents = { λ m. contents_of m };

    ghost regions = { λ m. regions_of m };

    #[inline(always)]
    fn load(&self, address: u64, width: u8) -> Result<u64, AccessFault> {
        self.read(address, width, false)
    }

    #[inline(always)]
    fn load_to_store(&self, address: u64, width: u8) -> Result<u64, AccessFault> {
        self.read(address, width, true)
    }

    #[inline(always)]
    fn store(&mut self, address: u64, width: u8, value: u64) -> Result<(), AccessFault> {
        self.write(address, width, value)
    }

    fn save(&mut self, address: u64, hart: u32, to: CodeRef) -> Result<(), SaveFault> {
        self.save_at(address, hart, to)
    }

    fn restore(&mut self, address: u64, hart: u32) -> Result<CodeRef, AccessFault> {
        self.restore_at(address, hart)
    }

    fn readable(&self, address: u64, length: u64) -> bool {
        self.areas.covers(address, length, false)
    }

    fn writable(&self, address: u64, length: u64) -> bool {
        self.areas.covers(address, length, true)
    }

    fn holds_return(&self, address: u64, length: u64) -> bool {
        self.meets_return(address, length)
    }

    fn append(&self, output: &mut Vec<u8>, address: u64, length: u64) -> Result<(), NoMemory> {
        self.append_to(output, address, length)
    }

    fn fill(&mut self, address: u64, bytes: &[u8]) {
        self.put_bytes(address, bytes);
    }

    fn empty(&mut self, hart: u32) {
        self.drop_returns(hart);
    }
}
