// SPDX-License-Identifier: Apache-2.0
//! The places of the functions.
ghost use Rattle.std.specs.Prelude.{◌≡◌, ◌+◌, ◌-◌, ◌*◌, ◌≤◌, ◌<◌, ◌^◌, IfOk, length, ℕ, slice_index};
ghost use Rattle.sh_types.specs.Limits.{cell_size, most_functions};
ghost use Rattle.layout_maker.specs.Draws.{draws_of, skip};
ghost use Rattle.layout_maker.specs.Spots.{places_by};
ghost use Rattle.sh_types.specs.Sized.{total as total_of};

use crate::draws::draw;
use rand_chacha::ChaCha20Rng;
use std::alloc::{AllocError, Global};

/// The bytes of functions of these sizes, each with its guard.
pub fn total(sizes: &[u32]) -> u64
    requires { length sizes.now ≤ most_functions }
    ensures { result ≡ total_of sizes.now }
{
    let mut sum = 0u64;
    for size in sizes {
        sum += u64::from(*size) + 4;
    }
    sum
}

/// The addresses of functions of these sizes that lie in this order from `start` on, each after a gap of at
/// most `share` bytes, by a draw for each.
#[tactic(auto, using(crate::proofs::Spotting::places_none, crate::proofs::Spotting::places_more, crate::proofs::Spotting::places_length, crate::proofs::Spotting::end_none, crate::proofs::Spotting::end_more, crate::proofs::Drawing::skip_none, crate::proofs::Drawing::skip_more, crate::proofs::Drawing::draws_next))]
pub fn spots(
    alloc: Global,
    rng: &mut ChaCha20Rng,
    share: u64,
    order: &[usize],
    sizes: &[u32],
    start: u64,
) -> Result<Vec<u64>, AllocError>
    requires room { rng.old.word_pos < 2 ^ 40 }
    requires start { start < 2 ^ 60 }
    requires share { share ≤ cell_size }
    requires few { length sizes.now ≤ most_functions }
    requires many { length order.now ≡ length sizes.now }
    requires below { (p : ℕ) → p < length order.now → slice_index order.now p < length sizes.now }
    ensures places { IfOk result (λ v. v.items ≡ places_by (draws_of rng.old) share order.now sizes.now start (length sizes.now)) }
    ensures rest { IfOk result (λ v. rng.new ≡ skip (length sizes.now) rng.old) }
{
    let n = sizes.len();
    let mut places = vec![in alloc; 0u64; n]?;
    let mut at = start;
    for p in 0..n {
        let word = draw(rng);
        let gap = 4 * (word % (share / 4 + 1));
        let function = order[p];
        places[function] = at + gap;
        at = at + gap + u64::from(sizes[function]) + 4;
    }
    Ok(places)
}
