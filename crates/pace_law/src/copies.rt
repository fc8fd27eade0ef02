// SPDX-License-Identifier: Apache-2.0
//! Which copies a paced journal runs from, and which of them are erased.
ghost use Rattle.std.specs.Prelude.{◌≡◌, ℕ, ◌+◌, ◌*◌, ◌<◌, ◌≤◌, List, ◌∷◌, ◌++◌, Some, slice_index};
ghost use Rattle.sh_types.specs.declared.code.Image.{Image};
ghost use Rattle.sh_types.specs.declared.layouts.Layout.{Layout};
ghost use Rattle.sh_types.specs.declared.runs.Event.{Event};
ghost use Rattle.sh_types.specs.declared.runs.Event.TheVariants.{Run, Publish};
ghost use Rattle.sh_machines.specs.Copy.{wiped_copy};
ghost use Rattle.sh_machines.specs.Event.{IsLegalIn, instructions, state_after};
ghost use Rattle.sh_machines.specs.Fine.{IsSetting};
ghost use Rattle.sh_machines.specs.Pace.{IsPaced};
ghost use Rattle.sh_machines.specs.Shuffled.{Setting};
ghost use Rattle.pace_law.specs.Copies.{RunsOnTime};

use crate::lists::counts_are_in_step;
use sh_law::{erased_copies_are_zero, instructions_are_counted, paced_harts_are_on_the_newest};

/// In a legal, paced journal each instruction runs from the copy of the layout of its count: from copy c / period + 1
/// where c instructions were executed before it.
pub fn instructions_run_on_time()
    ensures { (o : Setting) (period : ℕ) (before after : List Event) (n k m : ℕ) → IsSetting o → 1 ≤ period → IsLegalIn o (before ++ Run n k ∷ after) → IsPaced o.image o.input period (before ++ Run n k ∷ after) → m < k → RunsOnTime period n (instructions o n m (state_after o before)) }
{
    counts_are_in_step();
    paced_harts_are_on_the_newest();
}

/// Where layout k + 2 is published, the copy that was erased last is that of layout k, and every word of it is 0. In a
/// paced journal it is the count of (k + 1) periods.
pub fn copies_are_erased_in_time()
    ensures last { (o : Setting) (before after : List Event) (k : ℕ) → 1 ≤ k → IsLegalIn o (before ++ Publish (k + 2) ∷ after) → (state_after o before).wiped ≡ Some (wiped_copy o.image (o.layout_at k)) }
    ensures zero { (image : Image) (l : Layout) (i : ℕ) → slice_index (wiped_copy image l).words i ≡ 0 }
    ensures count { (o : Setting) (period : ℕ) (before after : List Event) (k : ℕ) → IsLegalIn o (before ++ Publish (k + 2) ∷ after) → IsPaced o.image o.input period (before ++ Publish (k + 2) ∷ after) → (state_after o before).count ≡ period * (k + 1) }
{
    erased_copies_are_zero();
    instructions_are_counted();
}
