// SPDX-License-Identifier: Apache-2.0
//! Instructions of a hart that are run ahead.
ghost use Rattle.std.specs.Prelude.{◌≡◌, ℕ, ◌<◌, ◌≤◌, List, [], ◌∷◌, Some, None, true, slice_get, take};
ghost use Rattle.sh_types.specs.declared.runs.Hart.{Hart};
ghost use Rattle.sh_types.specs.declared.runs.Event.{Event};
ghost use Rattle.sh_machines.specs.Event.{IsLegalIn, can_run, state_after};
ghost use Rattle.sh_machines.specs.Fine.{IsSetting};
ghost use Rattle.sh_machines.specs.Notes.{AreOnce, Hold, effects_of, is_stop, notes_of, with_words};
ghost use Rattle.sh_machines.specs.Need.{stored_at};
ghost use Rattle.sh_machines.specs.Shuffled.{Setting, Owned, moved_of, shuffled_start};
ghost use Rattle.sh_law.specs.AheadExample.{note, tries_setting, turn_in};
ghost use Rattle.sh_law.specs.Example.{example_events, example_setting};
ghost use Rattle.sh_law.specs.Done.{AreDone};

use sh_machines::instructions_see_one_word;

/// Instructions that were run ahead have the same notes and effects over any words that have, where they touched them,
/// the values and owners that were noted.
pub fn turns_see_what_they_note()
    ensures notes { (o : Setting) (k : ℕ) (h : Hart) (m n : ℕ → Owned) → Hold n (notes_of o k h m) → notes_of o (effects_of o k h m).count h n ≡ notes_of o k h m }
    ensures effects { (o : Setting) (k : ℕ) (h : Hart) (m n : ℕ → Owned) → Hold n (notes_of o k h m) → effects_of o (effects_of o k h m).count h n ≡ effects_of o k h m }
{
    instructions_see_one_word();
}

/// A note has the value and the owner that the word has before the turn, and no word is noted twice.
pub fn notes_are_taken_once()
    ensures here { (o : Setting) (k : ℕ) (h : Hart) (m : ℕ → Owned) → Hold m (notes_of o k h m) }
    ensures once { (o : Setting) (k : ℕ) (h : Hart) (m : ℕ → Owned) → AreOnce (notes_of o k h m) }
{}

/// A turn has at most as many instructions as were asked, and is the turn of just so many. It has fewer only where a call,
/// the hart's end, a trap or a leak comes next.
#[tactic(auto, using(crate::proofs::Noting::count_few, crate::proofs::Noting::notes_count, crate::proofs::Noting::effects_count, crate::proofs::Noting::turn_stops))]
pub fn turns_have_their_count()
    ensures few { (o : Setting) (k : ℕ) (h : Hart) (m : ℕ → Owned) → (effects_of o k h m).count ≤ k }
    ensures notes { (o : Setting) (k : ℕ) (h : Hart) (m : ℕ → Owned) → notes_of o (effects_of o k h m).count h m ≡ notes_of o k h m }
    ensures effects { (o : Setting) (k : ℕ) (h : Hart) (m : ℕ → Owned) → effects_of o (effects_of o k h m).count h m ≡ effects_of o k h m }
    ensures stops { (o : Setting) (k : ℕ) (h : Hart) (m : ℕ → Owned) → (effects_of o k h m).count < k → is_stop (moved_of o (effects_of o k h m).hart (with_words (effects_of o k h m).words m)) ≡ true }
{}

/// The effects of instructions that were run ahead, over whatever words, are what these instructions do in each state
/// that has the hart and the noted words as they were.
pub fn effects_are_carried()
    ensures here { (o : Setting) (events : List Event) (n k : ℕ) (h : Hart) → IsSetting o → IsLegalIn o events → can_run (state_after o events) n ≡ true → slice_get (state_after o events).harts n ≡ Some h → AreDone o n (state_after o events) (effects_of o k h (state_after o events).words) }
    ensures carried { (o : Setting) (events : List Event) (n k : ℕ) (h : Hart) (m : ℕ → Owned) → IsSetting o → IsLegalIn o events → can_run (state_after o events) n ≡ true → slice_get (state_after o events).harts n ≡ Some h → Hold (state_after o events).words (notes_of o k h m) → AreDone o n (state_after o events) (effects_of o k h m) }
{
    instructions_see_one_word();
}

/// Two turns are known: one with a store-conditional that fails, up to a trap, and one that saves ra, takes it back and
/// changes a word four times, up to the hart's end.
pub fn turns_are_met()
    ensures tries { turn_in tries_setting 0 9 (shuffled_start tries_setting) ≡ Some (record { notes = note 0x2000 7 None ∷ []; count = 2; words = note 0x2000 7 None ∷ []; stores = [] }) }
    ensures adds { turn_in example_setting 1 50 (state_after example_setting (take 2 example_events)) ≡ Some (record { notes = note 0x7fffdf9 0 None ∷ note 0x2000 0 None ∷ []; count = 19; words = note 0x7fffdf9 0 None ∷ note 0x2000 6 None ∷ []; stores = stored_at 0x3fffefc8 8 ∷ stored_at 0x10000 8 ∷ stored_at 0x10000 8 ∷ stored_at 0x10000 8 ∷ stored_at 0x10000 8 ∷ [] }) }
{}
