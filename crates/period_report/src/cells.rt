// SPDX-License-Identifier: Apache-2.0
//! The cells of the layouts, one after the other.
ghost use Rattle.std.specs.Prelude.{◌≡◌, ◌≤◌, ◌+◌, ◌++◌, [], ◌∷◌, IfOk, OnOk, string_bytes, length};
ghost use Rattle.sh_types.specs.Recent.{last_64};
ghost use Rattle.sh_types.specs.Limits.{recent_cells};
ghost use Rattle.layout_maker.specs.Cell.{cell_of};
ghost use Rattle.period_report.specs.Kept.{IsKept};
ghost use Rattle.period_report.specs.Text.{layout_line};

use crate::lines;
use layout_maker::cell_at;
use sh_types::limits::RECENT_CELLS;
use std::alloc::{AllocError, Global};

/// The number of the newest layout, 0 before the first, and the cells that the next one may not have, the oldest
/// first.
#[derive(Drop)]
pub struct Cells {
    pub newest: u64,
    pub recent: Vec<u32>,
}

/// One more cell, of the last RECENT_CELLS.
fn keep(recent: &mut Vec<u32>, cell: u32) -> Result<(), AllocError>
    requires { length recent.old.items ≤ recent_cells }
    ensures kept { OnOk result (recent.new.items ≡ last_64 (recent.old.items ++ cell ∷ [])) }
    ensures few { OnOk result (length recent.new.items ≤ recent_cells) }
{
    if recent.len() == RECENT_CELLS {
        recent.remove(0);
    }
    recent.push(cell)?;
    Ok(())
}

/// The line of the next layout, which came after so many instructions.
#[tactic(auto, using(crate::proofs::Counting::kept_next))]
pub fn publication(
    alloc: Global,
    seed: &[u8; 32],
    number: u64,
    count: u64,
    cells: &mut Cells,
) -> Result<String, AllocError>
    requires kept { IsKept seed.now cells.old }
    requires next { number ≡ cells.old.newest + 1 }
    ensures text { IfOk result (λ text. string_bytes text ≡ layout_line number count (cell_of seed.now number)) }
    ensures kept { IfOk result (λ t. IsKept seed.now cells.new) }
    ensures newest { IfOk result (λ t. cells.new.newest ≡ number) }
{
    let cell = cell_at(seed, number, cells.recent.as_slice());
    keep(&mut cells.recent, cell)?;
    cells.newest = number;
    let line = lines::layout(alloc, number, count, cell)?;
    Ok(line)
}
