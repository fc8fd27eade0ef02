// SPDX-License-Identifier: Apache-2.0
//! Laws of the layout rule, as clauses of functions that do nothing.
ghost use Rattle.std.specs.Prelude.{◌≡◌, ◌≢◌, ℕ, ◌+◌, ◌-◌, ◌%◌, ◌≤◌, ◌<◌, ◌^◌, List, [], length, slice_index, min, IsPermutation};
ghost use Rattle.std.specs.List.{range_with_len};
ghost use Rattle.sh_types.specs.declared.code.Pair.{Pair};
ghost use Rattle.sh_types.specs.Place.{WellPlaced, IsPair, place_of};
ghost use Rattle.sh_types.specs.Limits.{recent_cells};
ghost use Rattle.sh_types.specs.Sized.{IsSized};
ghost use Rattle.layout_maker.specs.Cell.{recent_of};
ghost use Rattle.layout_maker.specs.Order.{order_by};
ghost use Rattle.layout_maker.specs.Spots.{gap_by};
ghost use Rattle.layout_maker.specs.Layout.{layout_of};

/// The functions of each layout lie in its cell and share no byte.
pub fn layouts_are_well_placed()
    ensures { (sizes seed : List ℕ) (k : ℕ) → IsSized sizes → WellPlaced (layout_of sizes seed k) }
{}

/// The keys of each layout are numbers of 64 bits.
pub fn keys_are_small()
    ensures { (sizes seed : List ℕ) (k n : ℕ) → slice_index (layout_of sizes seed k).keys n < 2 ^ 64 }
{}

/// A place of a layout is a place of none of the next layouts that leave its cell alone.
#[tactic(auto, using(crate::proofs::Placed::places_new))]
pub fn places_are_new()
    ensures { (sizes seed : List ℕ) (k m : ℕ) (p q : Pair) → IsSized sizes → 0 < k → k < m → m ≤ k + recent_cells → IsPair sizes p → IsPair sizes q → place_of (layout_of sizes seed k) p ≢ place_of (layout_of sizes seed m) q }
{}

/// The order has each function once.
#[tactic(auto, using(crate::proofs::Orders::order_permutes))]
pub fn orders_are_permutations()
    ensures { (d : ℕ → ℕ) (n : ℕ) → 0 < n → IsPermutation (range_with_len 0 n) (order_by d n) }
{}

/// A gap is a multiple of 4 and no more than its share.
#[tactic(auto, using(crate::proofs::Spotting::gap_le, crate::proofs::Spotting::gap_whole))]
pub fn gaps_are_within_shares()
    ensures within { (d : ℕ → ℕ) (share p : ℕ) → gap_by d share p ≤ share }
    ensures whole { (d : ℕ → ℕ) (share p : ℕ) → gap_by d share p % 4 ≡ 0 }
{}

/// Before the first layout no cell is recent, and before each other one those of the last layouts are, recent_cells at most.
#[tactic(auto, using(crate::proofs::Cells::recent_first, crate::proofs::Cells::recent_count))]
pub fn recent_cells_are_counted()
    ensures first { (seed : List ℕ) → recent_of seed 1 ≡ [] }
    ensures many { (seed : List ℕ) (k : ℕ) → length (recent_of seed k) ≡ min (k - 1) recent_cells }
{}
