// SPDX-License-Identifier: Apache-2.0
//! The layout with a number.
ghost use Rattle.std.specs.Prelude.{◌≡◌, [], ◌∷◌, ◌++◌, ◌+◌, ◌-◌, ◌*◌, ◌≤◌, ◌<◌, ◌^◌, IfOk, length};
ghost use Rattle.sh_types.specs.Limits.{cell_size, most_functions};
ghost use Rattle.sh_types.specs.Place.{WellPlaced, cell_start};
ghost use Rattle.layout_maker.specs.Draws.{draws_of, skip};
ghost use Rattle.layout_maker.specs.Cell.{cell_of, recent_of};
ghost use Rattle.sh_types.specs.Sized.{total as total_of};
ghost use Rattle.sh_types.specs.Recent.{last_64};
ghost use Rattle.sh_types.specs.Sized.{IsSized};
ghost use Rattle.layout_maker.specs.Layout.{layout_of, keys_by, placed_by};

use crate::cell::cell;
use crate::draws::{draw, generator};
use crate::order::order;
use crate::spots::{spots, total};
use rand_chacha::ChaCha20Rng;
use sh_types::limits::{CELL_SIZE, FIRST_CELL, MOST_HARTS};
use sh_types::{Items, Layout, NoMemory};
use std::alloc::{AllocError, Global};

/// The keys of the harts, by a draw for each.
#[tactic(auto, using(crate::proofs::Keying::keys_none, crate::proofs::Keying::keys_more, crate::proofs::Keying::keys_all, crate::proofs::Drawing::skip_none, crate::proofs::Drawing::skip_more, crate::proofs::Drawing::draws_next))]
fn keys(alloc: Global, rng: &mut ChaCha20Rng) -> Result<Vec<u64>, AllocError>
    requires { rng.old.word_pos < 2 ^ 40 }
    ensures { IfOk result (λ v. v.items ≡ keys_by (draws_of rng.old)) }
{
    let mut keys = Vec::with_capacity(alloc, MOST_HARTS as usize)?;
    for i in 0..MOST_HARTS {
        let key = draw(rng);
        keys.push(key)?;
    }
    Ok(keys)
}

/// The addresses of functions of these sizes in the cell that begins at `start`.
#[tactic(auto, unfolding(crate::specs::Layout::placed_by), using(crate::proofs::Drawing::skip_more, crate::proofs::Drawing::draws_from))]
fn placed(
    alloc: Global,
    rng: &mut ChaCha20Rng,
    sizes: &[u32],
    start: u64,
) -> Result<Vec<u64>, AllocError>
    requires room { rng.old.word_pos < 2 ^ 30 }
    requires some { 0 < length sizes.now }
    requires few { length sizes.now ≤ most_functions }
    requires start { start < 2 ^ 60 }
    requires fits { total_of sizes.now ≤ cell_size }
    ensures places { IfOk result (λ v. v.items ≡ placed_by (draws_of rng.old) sizes.now start) }
    ensures rest { IfOk result (λ v. rng.new ≡ skip (2 * length sizes.now - 1) rng.old) }
{
    let n = sizes.len();
    let order = order(alloc, rng, n)?;
    let share = (CELL_SIZE - total(sizes)) / n as u64;
    spots(alloc, rng, share, order.as_slice(), sizes, start)
}

/// The address at which a cell begins.
fn start_of(cell: u32) -> u64
    ensures is { result ≡ cell_start cell }
    ensures small { result < 2 ^ 60 }
{
    FIRST_CELL + CELL_SIZE * u64::from(cell)
}

/// The parts of the layout with this number.
#[tactic(auto, using(crate::proofs::Making::layout_is, crate::proofs::Cells::recent_length))]
fn made(
    alloc: Global,
    sizes: &[u32],
    seed: &[u8; 32],
    number: u64,
    recent: &[u32],
) -> Result<Layout, NoMemory>
    requires number { 0 < number }
    requires recent { recent.now ≡ recent_of seed.now number }
    requires sizes { IsSized sizes.now }
    ensures { IfOk result (λ l. l ≡ layout_of sizes.now seed.now number) }
{
    let mut rng = generator(seed, number);
    let word = draw(&mut rng);
    let cell = cell(word, recent);
    let places = placed(alloc, &mut rng, sizes, start_of(cell))?;
    let keys = keys(alloc, &mut rng)?;
    Ok(Layout {
        number,
        cell,
        places: Items::from_vec(places),
        sizes: Items::from_vec(Vec::from_slice(alloc, sizes)?),
        keys: Items::from_vec(keys),
    })
}

/// The layout with this number of functions of these sizes, by the stream of the seed. `recent` has the cells of
/// the last layouts before it, RECENT_CELLS at most, the oldest first. Err only where memory is refused.
#[tactic(auto, using(crate::proofs::Making::made_recent, crate::proofs::Making::made_sizes))]
pub fn make_layout(
    alloc: Global,
    sizes: &[u32],
    seed: &[u8; 32],
    number: u64,
    recent: &[u32],
) -> Result<Layout, NoMemory>
    requires number { 0 < number }
    requires recent { recent.now ≡ recent_of seed.now number }
    requires sizes { IsSized sizes.now }
    ensures is { IfOk result (λ l. l ≡ layout_of sizes.now seed.now number) }
    ensures placed { IfOk result (λ l. WellPlaced l) }
    ensures sizes { IfOk result (λ l. l.sizes ≡ sizes.now) }
    ensures recent { IfOk result (λ l. recent_of seed.now (number + 1) ≡ last_64 (recent.now ++ l.cell ∷ [])) }
{
    let layout = made(alloc, sizes, seed, number, recent)?;
    Ok(layout)
}

/// The cell of the layout with this number. `recent` has the cells of the last layouts before it,
/// RECENT_CELLS at most, the oldest first. It takes no memory.
#[tactic(auto, unfolding(crate::specs::Cell::cell_of), using(crate::proofs::Cells::recent_length, crate::proofs::Cells::recent_more))]
pub fn cell_at(seed: &[u8; 32], number: u64, recent: &[u32]) -> u32
    requires number { 0 < number }
    requires recent { recent.now ≡ recent_of seed.now number }
    ensures is { result ≡ cell_of seed.now number }
    ensures recent { recent_of seed.now (number + 1) ≡ last_64 (recent.now ++ result ∷ []) }
{
    let mut rng = generator(seed, number);
    let word = draw(&mut rng);
    cell(word, recent)
}
