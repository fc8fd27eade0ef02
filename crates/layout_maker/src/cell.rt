// SPDX-License-Identifier: Apache-2.0
//! The cell of a layout.
ghost use Rattle.std.specs.Prelude.{◌≡◌, ◌≤◌, ◌-◌, ◌%◌, length, slice_index};
ghost use Rattle.sh_types.specs.Limits.{cell_count, recent_cells};
ghost use Rattle.layout_maker.specs.Cell.{cell_by, free_from};

use sh_types::limits::CELL_COUNT;

/// The cell that a draw gives, where these were used lately.
#[tactic(auto, unfolding(crate::specs::Cell::cell_by))]
pub fn cell(draw: u64, recent: &[u32]) -> u32
    requires { length recent.now ≤ recent_cells }
    ensures { result ≡ cell_by draw recent.now }
{
    free_cell(draw % (u64::from(CELL_COUNT) - recent.len() as u64), recent)
}

/// The free cell with this number, counted from 0 in rising order.
#[tactic(auto, using(crate::proofs::Freeing::free_here, crate::proofs::Freeing::free_past, crate::proofs::Freeing::free_not, crate::proofs::Freeing::free_none))]
fn free_cell(number: u64, recent: &[u32]) -> u32
    ensures { result ≡ slice_index (free_from recent.now 0 cell_count) number }
{
    let mut left = number;
    for cell in 0..CELL_COUNT {
        if !recent.contains(&cell) {
            if left == 0 {
                return cell;
            }
            left -= 1;
        }
    }
    0
}
