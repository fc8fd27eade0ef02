// SPDX-License-Identifier: Apache-2.0
//! Segments and sections by rising addresses.
ghost use Rattle.std.specs.Prelude.{◌≡◌, ◌+◌, ◌<◌, ◌≤◌, ◌^◌, ℕ, All, IfOk, filter, length, slice_index_or, true};
ghost use Rattle.std.specs.List.Sorted.{IsNonDecreasingBy};
ghost use Rattle.elf_rules.specs.declared.elf.Head.{Head};
ghost use Rattle.elf_rules.specs.declared.elf.Segment.{Segment};
ghost use Rattle.elf_rules.specs.Bindable.{codes_within, file_place, is_inside, rising_by, section_with};
ghost use Rattle.elf_rules.specs.Elf as elf;
ghost use Rattle.elf_rules.specs.ElfRules.{has_memory};
ghost use Rattle.image_binding.specs.Order.{AreApart, StartsFrom};

use elf_rules::{Head, Segment, is_code, with_memory};
use std::alloc::{AllocError, Global};

/// The segments with memory, by rising addresses.
pub fn filled_in_order(alloc: Global, segments: &[Segment]) -> Result<Vec<Segment>, AllocError>
    ensures { IfOk result (λ found. found.items ≡ rising_by (λ (g : Segment). g.start) (filter has_memory segments.now)) }
{
    let mut found = with_memory(alloc, segments)?;
    found.sort_by_key(|segment| segment.start)?;
    Ok(found)
}

fn codes(alloc: Global, heads: &[Head]) -> Result<Vec<Head>, AllocError>
    ensures { IfOk result (λ found. found.items ≡ filter elf.is_code heads.now) }
{
    heads
        .iter()
        .filter(|head| is_code(head))
        .copied()
        .collect(alloc)
}

/// The sections with code, by rising addresses.
pub fn codes_in_order(alloc: Global, heads: &[Head]) -> Result<Vec<Head>, AllocError>
    ensures { IfOk result (λ found. found.items ≡ rising_by (λ (h : Head). h.start) (filter elf.is_code heads.now)) }
{
    let mut found = codes(alloc, heads)?;
    found.sort_by_key(|head| head.start)?;
    Ok(found)
}

/// How many of the sections start below an address.
fn starting_below(codes: &[Head], address: u64) -> usize
    requires { IsNonDecreasingBy (λ (h : Head). h.start) codes.now }
    ensures bound { result ≤ length codes.now }
    ensures below { (k : ℕ) (d : Head) → k < result → (slice_index_or codes.now k d).start < address }
    ensures above { (k : ℕ) (d : Head) → result ≤ k → k < length codes.now → address ≤ (slice_index_or codes.now k d).start }
{
    codes.partition_point(|head| head.start < address)
}

/// Of sections in order those that start in a segment.
pub fn codes_within<'a>(segment: &Segment, codes: &'a [Head]) -> &'a [Head]
    requires rise { IsNonDecreasingBy (λ (h : Head). h.start) codes.now }
    requires fits { segment.now.start + segment.now.size < 2 ^ 64 }
    ensures within { result.now ≡ codes_within segment.now codes.now }
    ensures from { All (StartsFrom segment.now.start) result.now }
{
    let first = starting_below(codes, segment.start);
    let end = starting_below(codes, segment.start + segment.size);
    &codes[first..end]
}

/// How many of the sections start at or below an address.
fn starting_by(codes: &[Head], address: u64) -> usize
    requires { IsNonDecreasingBy (λ (h : Head). h.start) codes.now }
    ensures bound { result ≤ length codes.now }
    ensures below { (k : ℕ) (d : Head) → k < result → (slice_index_or codes.now k d).start ≤ address }
    ensures above { (k : ℕ) (d : Head) → result ≤ k → k < length codes.now → address < (slice_index_or codes.now k d).start }
{
    codes.partition_point(|head| head.start <= address)
}

/// Of sections in order the one that an address lies in.
fn section_with(codes: &[Head], address: u64) -> Head
    requires apart { AreApart codes.now }
    requires found { is_inside address (section_with codes.now address) ≡ true }
    ensures { result ≡ section_with codes.now address }
{
    let count = starting_by(codes, address);
    codes[count - 1]
}

/// Where the bytes of an address that lies in one of the sections, which are in order, stand in the file.
pub fn file_place(codes: &[Head], address: u64) -> u64
    requires apart { AreApart codes.now }
    requires found { is_inside address (section_with codes.now address) ≡ true }
    requires fits { file_place codes.now address < 2 ^ 64 }
    ensures { result ≡ file_place codes.now address }
{
    let section = section_with(codes, address);
    section.file_at + (address - section.start)
}
