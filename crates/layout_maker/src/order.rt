// SPDX-License-Identifier: Apache-2.0
//! The order in which the functions lie.
ghost use Rattle.std.specs.Prelude.{◌≡◌, ◌+◌, ◌-◌, ◌≤◌, ◌<◌, ◌^◌, IfOk, length, ℕ, slice_index};
ghost use Rattle.std.specs.List.{range_with_len};
ghost use Rattle.sh_types.specs.Limits.{most_functions};
ghost use Rattle.layout_maker.specs.Draws.{draws_of, skip};
ghost use Rattle.layout_maker.specs.Order.{order_by};

use crate::draws::draw;
use rand_chacha::ChaCha20Rng;
use std::alloc::{AllocError, Global};

/// The numbers below n in rising order.
#[tactic(auto, using(crate::proofs::Ordering::rising_more))]
fn rising(alloc: Global, n: usize) -> Result<Vec<usize>, AllocError>
    ensures { IfOk result (λ v. v.items ≡ range_with_len 0 n) }
{
    let mut numbers = Vec::with_capacity(alloc, n)?;
    for i in 0..n {
        numbers.push(i)?;
    }
    Ok(numbers)
}

/// Swaps each place, from the last one down, with one that is not above it.
#[tactic(auto, using(crate::proofs::Ordering::swapped_none, crate::proofs::Ordering::swapped_more, crate::proofs::Ordering::swapped_length, crate::proofs::Drawing::skip_none, crate::proofs::Drawing::skip_more, crate::proofs::Drawing::draws_next))]
fn shuffle(rng: &mut ChaCha20Rng, order: &mut Vec<usize>, n: usize)
    requires room { rng.old.word_pos < 2 ^ 40 }
    requires some { 0 < n }
    requires few { n ≤ most_functions }
    requires rising { order.old.items ≡ range_with_len 0 n }
    ensures order { order.new.items ≡ order_by (draws_of rng.old) n }
    ensures rest { rng.new ≡ skip (n - 1) rng.old }
{
    for m in 0..n - 1 {
        let word = draw(rng);
        let last = n - 1 - m;
        let other = (word % (last as u64 + 1)) as usize;
        order.swap(last, other);
    }
}

/// The order of n functions, by n - 1 draws.
#[tactic(auto, using(crate::proofs::Ordering::rising_length, crate::proofs::Orders::order_length, crate::proofs::Orders::order_below))]
pub fn order(alloc: Global, rng: &mut ChaCha20Rng, n: usize) -> Result<Vec<usize>, AllocError>
    requires room { rng.old.word_pos < 2 ^ 40 }
    requires some { 0 < n }
    requires few { n ≤ most_functions }
    ensures order { IfOk result (λ v. v.items ≡ order_by (draws_of rng.old) n) }
    ensures many { IfOk result (λ v. length v.items ≡ n) }
    ensures below { IfOk result (λ v. (p : ℕ) → p < n → slice_index v.items p < n) }
    ensures rest { IfOk result (λ v. rng.new ≡ skip (n - 1) rng.old) }
{
    let mut order = rising(alloc, n)?;
    shuffle(rng, &mut order, n);
    Ok(order)
}
