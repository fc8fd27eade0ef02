// SPDX-License-Identifier: Apache-2.0
//! What the machine that never moves asks of its memory.
ghost use Rattle.std.specs.Prelude.{◌≡◌, ℕ, ◌/◌, ◌++◌, true, [], List, length as length_of, IsTrue, ◌↔◌, IsSome, IsNone, OnOk, OnErr, unwrap_or};
ghost use Rattle.sh_types.specs.declared.code.Region.{Region};
ghost use Rattle.sh_machines.specs.Memory.{bytes_from, readable as readable_of, writable as writable_of};
ghost use Rattle.sh_machines.specs.Need.{with_part};
ghost use Rattle.sh_machines.specs.Unmoved.{Content, Number, Return, emptied, filled};
ghost use Rattle.plain_memory.specs.Access.{IsWidth, IsSaved, after_access, load_of, number_in, plain_in, restore_of, store_of, test_of};

use sh_types::{CodeRef, NoMemory};

/// Why a word was not touched. The first that applies is answered: the address is no multiple of the width; a byte is not
/// mapped for that use; a byte lies in a return word, or, for a restore, the word is no return word of the hart.
#[derive(Clone, Copy, Debug, PartialEq, Eq)]
pub enum AccessFault {
    Misaligned,
    Fault,
    Leak,
}

/// Why a return word was not saved: memory was refused, or the word may not be touched.
#[derive(Clone, Copy, Debug, PartialEq, Eq)]
pub enum SaveFault {
    NoMemory,
    Access { fault: AccessFault },
}

/// Aligned words of eight bytes, each a number or a return word of a hart, and the bytes that can be read and written.
/// Widths are 1, 2, 4 and 8.
pub trait Contents {
    /// The word of each number, which is its address over 8.
    ghost contents: { Self → ℕ → Content };

    /// Which bytes can be read and written.
    ghost regions: { Self → List Region };

    /// The bytes from an address on, as a number.
    fn load(&self, address: u64, width: u8) -> Result<u64, AccessFault>
        requires { IsWidth width }
        ensures { result ≡ load_of (regions self.now) address width (contents self.now (address / 8)) };

    /// The same of bytes that are to be stored afterwards: they must be writable.
    fn load_to_store(&self, address: u64, width: u8) -> Result<u64, AccessFault>
        requires { IsWidth width }
        ensures { result ≡ test_of (regions self.now) address width (contents self.now (address / 8)) };

    /// Puts the low bytes of the number there.
    fn store(&mut self, address: u64, width: u8, value: u64) -> Result<(), AccessFault>
        requires { IsWidth width }
        ensures value { result ≡ store_of (regions self.old) address width (contents self.old (address / 8)) }
        ensures contents { contents self.new ≡ after_access result (contents self.old) (address / 8) (Number (with_part address width value (number_in (contents self.old (address / 8))))) }
        ensures regions { regions self.new ≡ regions self.old };

    /// The word becomes a return word of the hart, which leads there. Where memory is refused nothing changes.
    fn save(&mut self, address: u64, hart: u32, to: CodeRef) -> Result<(), SaveFault>
        ensures value { IsSaved result (store_of (regions self.old) address 8 (contents self.old (address / 8))) }
        ensures contents { contents self.new ≡ after_access result (contents self.old) (address / 8) (Return hart to) }
        ensures regions { regions self.new ≡ regions self.old };

    /// Takes back where a return word of the hart leads, and leaves zero. A word that is none of the hart's is a leak.
    fn restore(&mut self, address: u64, hart: u32) -> Result<CodeRef, AccessFault>
        ensures value { result ≡ restore_of (regions self.old) address hart (contents self.old (address / 8)) }
        ensures contents { contents self.new ≡ after_access result (contents self.old) (address / 8) (Number 0) }
        ensures regions { regions self.new ≡ regions self.old };

    /// Whether all of the bytes from an address on can be read. A range that passes 2^64 cannot.
    fn readable(&self, address: u64, length: u64) -> bool
        ensures { result ≡ readable_of (regions self.now) address length };

    /// Whether all of the bytes from an address on can be written.
    fn writable(&self, address: u64, length: u64) -> bool
        ensures { result ≡ writable_of (regions self.now) address length };

    /// Whether one of the bytes from an address on lies in a return word.
    fn holds_return(&self, address: u64, length: u64) -> bool
        ensures { IsTrue result ↔ IsNone (bytes_from (plain_in (contents self.now)) address length) };

    /// The bytes from an address on join the list. Where memory is refused it stays as it is.
    fn append(&self, output: &mut Vec<u8>, address: u64, length: u64) -> Result<(), NoMemory>
        requires readable { readable_of (regions self.now) address length ≡ true }
        requires plain { IsSome (bytes_from (plain_in (contents self.now)) address length) }
        ensures ok { OnOk result (output.new.items ≡ output.old.items ++ unwrap_or (bytes_from (plain_in (contents self.now)) address length) []) }
        ensures err { OnErr result (output.new.items ≡ output.old.items) };

    /// Puts the bytes from an address on, where each can be written and lies in no return word.
    fn fill(&mut self, address: u64, bytes: &[u8])
        requires writable { writable_of (regions self.old) address (length_of bytes.now) ≡ true }
        requires plain { IsSome (bytes_from (plain_in (contents self.old)) address (length_of bytes.now)) }
        ensures contents { contents self.new ≡ filled address bytes.now (contents self.old) }
        ensures regions { regions self.new ≡ regions self.old };

    /// The return words of a hart become zeros.
    fn empty(&mut self, hart: u32)
        ensures contents { contents self.new ≡ emptied hart (contents self.old) }
        ensures regions { regions self.new ≡ regions self.old };
}
