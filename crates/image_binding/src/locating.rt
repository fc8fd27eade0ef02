// SPDX-License-Identifier: Apache-2.0
//! Where the bytes of addresses stand in a file.
ghost use Rattle.std.specs.Prelude.{◌≡◌, ◌<◌, ◌≤◌, ◌^◌, ℕ, length, slice_index_or, true};
ghost use Rattle.std.specs.List.Sorted.{IsNonDecreasingBy};
ghost use Rattle.elf_rules.specs.declared.elf.Segment.{Segment};
ghost use Rattle.elf_rules.specs.Bindable.{is_mapped_at, mapped_place, segment_with};
ghost use Rattle.image_binding.specs.Order.{SegmentsApart};

use elf_rules::Segment;

/// How many of the segments start at or below an address.
fn starting_by(segments: &[Segment], address: u64) -> usize
    requires { IsNonDecreasingBy (λ (g : Segment). g.start) segments.now }
    ensures bound { result ≤ length segments.now }
    ensures below { (k : ℕ) (d : Segment) → k < result → (slice_index_or segments.now k d).start ≤ address }
    ensures above { (k : ℕ) (d : Segment) → result ≤ k → k < length segments.now → address < (slice_index_or segments.now k d).start }
{
    segments.partition_point(|segment| segment.start <= address)
}

/// Of segments in order the one that has an address.
fn segment_with(segments: &[Segment], address: u64) -> Segment
    requires apart { SegmentsApart segments.now }
    requires found { is_mapped_at address (segment_with segments.now address) ≡ true }
    ensures { result ≡ segment_with segments.now address }
{
    let count = starting_by(segments, address);
    segments[count - 1]
}

/// Where the byte of an address that one of the segments has, which are in order, stands in the file.
pub fn mapped_place(segments: &[Segment], address: u64) -> u64
    requires apart { SegmentsApart segments.now }
    requires found { is_mapped_at address (segment_with segments.now address) ≡ true }
    requires fits { mapped_place segments.now address < 2 ^ 64 }
    ensures { result ≡ mapped_place segments.now address }
{
    let segment = segment_with(segments, address);
    segment.file_at + (address - segment.start)
}
