// SPDX-License-Identifier: Apache-2.0
//! Ranges of bytes, and the return words of a hart.
ghost use Rattle.std.specs.Prelude.{◌≡◌, ◌/◌, ◌++◌, ◌↔◌, true, [], length as length_of, IsTrue, IsSome, IsNone, OnOk, OnErr, unwrap_or};
ghost use Rattle.sh_machines.specs.Memory.{bytes_from, readable, writable};
ghost use Rattle.sh_machines.specs.Unmoved.{emptied, filled};
ghost use Rattle.plain_memory.specs.Access.{plain_in};
ghost use Rattle.plain_memory.specs.Plain.{contents_of, regions_of};

use crate::memory::PlainMemory;
use sh_types::NoMemory;

impl PlainMemory {
    /// Whether one of the bytes from an address on lies in a return word.
    pub(crate) fn meets_return(&self, address: u64, length: u64) -> bool
        ensures { IsTrue result ↔ IsNone (bytes_from (plain_in (contents_of self.now)) address length) }
    {
        match self.returns.first_from(address / 8) {
            Some(word) => {
                length > 0 && 8 * u128::from(word) < u128::from(address) + u128::from(length)
            }
            None => false,
        }
    }

    /// The bytes from an address on join the list. Where memory is refused it stays as it is.
    pub(crate) fn append_to(
        &self,
        output: &mut Vec<u8>,
        address: u64,
        length: u64,
    ) -> Result<(), NoMemory>
        requires readable { readable (regions_of self.now) address length ≡ true }
        requires plain { IsSome (bytes_from (plain_in (contents_of self.now)) address length) }
        ensures ok { OnOk result (output.new.items ≡ output.old.items ++ unwrap_or (bytes_from (plain_in (contents_of self.now)) address length) []) }
        ensures err { OnErr result (output.new.items ≡ output.old.items) }
    {
        if length == 0 {
            return Ok(());
        }
        self.areas.reads_low(address, length);
        output.reserve(length as usize)?;
        for k in 0..length {
            output.push_reserved(self.areas.byte(address + k));
        }
        Ok(())
    }

    /// Puts the bytes from an address on, where each can be written and lies in no return word.
    pub(crate) fn put_bytes(&mut self, address: u64, bytes: &[u8])
        requires writable { writable (regions_of self.old) address (length_of bytes.now) ≡ true }
        requires plain { IsSome (bytes_from (plain_in (contents_of self.old)) address (length_of bytes.now)) }
        ensures contents { contents_of self.new ≡ filled address bytes.now (contents_of self.old) }
        ensures regions { regions_of self.new ≡ regions_of self.old }
    {
        self.areas.fill(address, bytes);
    }

    /// The return words of a hart become zeros.
    pub(crate) fn drop_returns(&mut self, hart: u32)
        ensures contents { contents_of self.new ≡ emptied hart (contents_of self.old) }
        ensures regions { regions_of self.new ≡ regions_of self.old }
    {
        self.returns.drop_his(hart);
    }
}
