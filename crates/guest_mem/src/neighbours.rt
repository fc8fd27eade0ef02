// SPDX-License-Identifier: Apache-2.0
//! Of regions that rise, those that can have bytes in the words of one of them.
ghost use Rattle.std.specs.Prelude.{◌≡◌, ℕ, ◌<◌, ◌≤◌, true, Some, length, slice_get};
ghost use Rattle.guest_mem.specs.First.{first_cell, meets_word, rise_from, stands_from as stands_from_of};

use sh_types::Region;

/// How many regions on one side of a region can share a word with it where each has a byte: a word has eight.
const REACH: usize = 7;

/// Whether a region has a byte, and starts at or above an address.
fn stands_from(region: &Region, address: u64) -> bool
    ensures { result ≡ stands_from_of address region.now }
{
    address <= region.start && region.start < region.end
}

/// Whether each region has a byte, and starts at or above the end of the one before.
pub fn rise(regions: &[Region]) -> bool
    ensures { result ≡ rise_from 0 regions.now }
{
    let mut low = 0;
    for region in regions {
        if !stands_from(region, low) {
            return false;
        }
        low = region.end;
    }
    true
}

/// Regions that tell of each word of the region with this number what all of them tell: a few where the regions rise, and
/// else all.
pub fn near(regions: &[Region], rising: bool, at: usize) -> &[Region]
    requires rising { rising ≡ rise_from 0 regions.now }
    requires at { at < length regions.now }
    ensures same { (w : ℕ) (r : Region) → slice_get regions.now at ≡ Some r → meets_word w r ≡ true → first_cell result.now w ≡ first_cell regions.now w }
    ensures few { rising ≡ true → length result.now ≤ 15 }
{
    if !rising {
        return regions;
    }
    let from = at.saturating_sub(REACH);
    let to = at + (regions.len() - at).min(REACH + 1);
    &regions[from..to]
}
