// SPDX-License-Identifier: Apache-2.0
//! Numbers of one, two, four and eight bytes. Memory is little-endian.
ghost use Rattle.std.specs.Prelude.{◌≡◌, ℕ, ◌+◌, ◌*◌, ◌%◌, ◌^◌, ◌<◌, ◌≤◌, ◌==◌, length, slice_index};
ghost use Rattle.sh_machines.specs.Memory.{bytes_number};
ghost use Rattle.plain_memory.specs.Access.{IsWidth};
ghost use Rattle.plain_memory.specs.Changed.{PutsAt};

use byteorder::{ByteOrder, LittleEndian};

/// Whether an address is a multiple of a width.
#[inline(always)]
pub fn is_aligned(address: u64, width: u8) -> bool
    requires { IsWidth width }
    ensures { result ≡ (address % width == 0) }
{
    match width {
        1 => true,
        2 => address % 2 == 0,
        4 => address % 4 == 0,
        _ => address % 8 == 0,
    }
}

#[inline(always)]
#[tactic(auto, using(crate::proofs::Little::number_there))]
fn read_two(bytes: &[u8], at: usize) -> u16
    requires { at + 2 ≤ length bytes.now }
    ensures { result ≡ bytes_number (λ k. slice_index bytes.now k) at 2 }
{
    LittleEndian::read_u16(&bytes[at..])
}

#[inline(always)]
#[tactic(auto, using(crate::proofs::Little::number_there))]
fn read_four(bytes: &[u8], at: usize) -> u32
    requires { at + 4 ≤ length bytes.now }
    ensures { result ≡ bytes_number (λ k. slice_index bytes.now k) at 4 }
{
    LittleEndian::read_u32(&bytes[at..])
}

#[inline(always)]
#[tactic(auto, using(crate::proofs::Little::number_there))]
fn read_eight(bytes: &[u8], at: usize) -> u64
    requires { at + 8 ≤ length bytes.now }
    ensures { result ≡ bytes_number (λ k. slice_index bytes.now k) at 8 }
{
    LittleEndian::read_u64(&bytes[at..])
}

/// The number of `width` bytes from a place on.
#[inline(always)]
pub fn number_at(bytes: &[u8], at: usize, width: u8) -> u64
    requires width { IsWidth width }
    requires within { at + width ≤ length bytes.now }
    ensures { result ≡ bytes_number (λ k. slice_index bytes.now k) at width }
{
    match width {
        1 => u64::from(bytes[at]),
        2 => u64::from(read_two(bytes, at)),
        4 => u64::from(read_four(bytes, at)),
        _ => read_eight(bytes, at),
    }
}

#[inline(always)]
fn write_one(bytes: &mut [u8], at: usize, value: u8)
    requires { at + 1 ≤ length bytes.old }
    ensures { PutsAt bytes.old bytes.new at 1 value }
{
    bytes[at] = value;
}

#[inline(always)]
fn write_two(bytes: &mut [u8], at: usize, value: u16)
    requires { at + 2 ≤ length bytes.old }
    ensures { PutsAt bytes.old bytes.new at 2 value }
{
    LittleEndian::write_u16(&mut bytes[at..], value);
}

#[inline(always)]
fn write_four(bytes: &mut [u8], at: usize, value: u32)
    requires { at + 4 ≤ length bytes.old }
    ensures { PutsAt bytes.old bytes.new at 4 value }
{
    LittleEndian::write_u32(&mut bytes[at..], value);
}

#[inline(always)]
fn write_eight(bytes: &mut [u8], at: usize, value: u64)
    requires { at + 8 ≤ length bytes.old }
    ensures { PutsAt bytes.old bytes.new at 8 value }
{
    LittleEndian::write_u64(&mut bytes[at..], value);
}

/// Puts the low bytes of a number from a place on, `width` of them.
#[inline(always)]
pub fn put_at(bytes: &mut [u8], at: usize, width: u8, value: u64)
    requires width { IsWidth width }
    requires within { at + width ≤ length bytes.old }
    ensures puts { PutsAt bytes.old bytes.new at width (value % 2 ^ (8 * width)) }
    ensures small { (i : ℕ) → slice_index bytes.new i < 256 }
{
    match width {
        1 => write_one(bytes, at, (value % 0x100) as u8),
        2 => write_two(bytes, at, (value % 0x1_0000) as u16),
        4 => write_four(bytes, at, (value % 0x1_0000_0000) as u32),
        _ => write_eight(bytes, at, value),
    }
}
