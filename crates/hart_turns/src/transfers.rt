// SPDX-License-Identifier: Apache-2.0
//! Bytes that environment calls write and read.
ghost use Rattle.std.specs.Prelude.{◌≡◌, ◌++◌, true, [], length, length as length_of, IsSome, OnOk, OnErr, unwrap_or};
ghost use Rattle.guest_mem.specs.Held.{words_of, plain_of, regions_of};
ghost use Rattle.sh_machines.specs.Memory.{readable, writable, bytes_from};
ghost use Rattle.sh_machines.specs.Shuffled.{fills};

use guest_mem::GuestMem;
use sh_types::NoMemory;

/// The `length` bytes from an address on join the list. Err, and no change, only where memory is refused.
pub fn append(
    memory: &GuestMem,
    output: &mut Vec<u8>,
    address: u64,
    length: u64,
) -> Result<(), NoMemory>
    requires readable { readable (regions_of memory.now) address length ≡ true }
    requires plain { IsSome (bytes_from (plain_of memory.now) address length) }
    ensures ok { OnOk result (output.new.items ≡ output.old.items ++ unwrap_or (bytes_from (plain_of memory.now) address length) []) }
    ensures err { OnErr result (output.new.items ≡ output.old.items) }
{
    if length == 0 {
        return Ok(());
    }
    memory.reads_low(address, length);
    output.reserve(length as usize)?;
    for k in 0..length {
        let byte = memory.byte(address + k).unwrap_or(0);
        output.push_reserved(byte);
    }
    Ok(())
}

/// The bytes are put from an address on, where each can be written and lies in no return word.
pub fn fill(memory: &mut GuestMem, address: u64, bytes: &[u8])
    requires writable { writable (regions_of memory.old) address (length_of bytes.now) ≡ true }
    requires plain { IsSome (bytes_from (plain_of memory.old) address (length_of bytes.now)) }
    ensures words { words_of memory.new ≡ fills address bytes.now (words_of memory.old) }
    ensures regions { regions_of memory.new ≡ regions_of memory.old }
{
    let mut at = address;
    for byte in bytes {
        memory.reads_low(at, 1);
        memory.put_byte(at, *byte);
        at += 1;
    }
}
