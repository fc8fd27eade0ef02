// SPDX-License-Identifier: Apache-2.0
//! The serial order, and what it makes of a journal.
ghost use Rattle.std.specs.Prelude.{◌≡◌, ℕ, ◌≤◌, List, ◌++◌, length, true};
ghost use Rattle.sh_types.specs.declared.code.Image.{Image};
ghost use Rattle.sh_types.specs.declared.runs.Event.{Event};
ghost use Rattle.sh_machines.specs.Event.{IsLegalIn, written};
ghost use Rattle.sh_machines.specs.Fine.{IsSetting};
ghost use Rattle.sh_machines.specs.Pace.{IsPaced, pace_after};
ghost use Rattle.sh_machines.specs.Serial.{Schedule, is_done, serial_from, serial_list};
ghost use Rattle.sh_machines.specs.Shuffled.{Setting};
ghost use Rattle.sh_machines.specs.Unmoved.{goes_still, unmoved_run};
ghost use Rattle.pace_law.specs.Step.{InStep};

use sh_law::paced_events_are_allowed;

/// The serial list has at most its steps, and exactly so many where the run has not ended.
pub fn serial_lists_run_to_their_end()
    ensures few { (i : Image) (input : List ℕ) (s : Schedule) → 1 ≤ s.period → length (written (serial_list i input s)) ≤ s.steps }
    ensures full { (i : Image) (input : List ℕ) (s : Schedule) → 1 ≤ s.period → 1 ≤ s.quantum → goes_still (unmoved_run i input (written (serial_list i input s))).end ≡ true → length (written (serial_list i input s)) ≡ s.steps }
{}

/// Each event of the serial list is allowed where it stands, whatever the layouts are.
pub fn serial_lists_are_legal()
    ensures { (o : Setting) (s : Schedule) → IsSetting o → 1 ≤ s.period → IsLegalIn o (serial_list o.image o.input s) }
{
    paced_events_are_allowed();
}

/// The count of a legal, paced journal is that of its newest layout.
pub fn counts_are_in_step()
    ensures { (o : Setting) (period : ℕ) (events : List Event) → IsSetting o → IsLegalIn o events → IsPaced o.image o.input period events → InStep period (pace_after o.image o.input events) }
{
    paced_events_are_allowed();
}

/// A legal, paced journal that has no more instructions than the steps is gone on with by the serial order, legally and
/// in pace, until the run has ended or all steps are done.
pub fn serial_orders_go_on()
    ensures legal { (o : Setting) (s : Schedule) (events : List Event) → IsSetting o → 1 ≤ s.period → IsLegalIn o events → IsPaced o.image o.input s.period events → (pace_after o.image o.input events).count ≤ s.steps → IsLegalIn o (events ++ serial_from o.image s (pace_after o.image o.input events)) }
    ensures paced { (o : Setting) (s : Schedule) (events : List Event) → IsSetting o → 1 ≤ s.period → IsLegalIn o events → IsPaced o.image o.input s.period events → (pace_after o.image o.input events).count ≤ s.steps → IsPaced o.image o.input s.period (events ++ serial_from o.image s (pace_after o.image o.input events)) }
    ensures few { (o : Setting) (s : Schedule) (events : List Event) → IsSetting o → 1 ≤ s.period → IsLegalIn o events → IsPaced o.image o.input s.period events → (pace_after o.image o.input events).count ≤ s.steps → (pace_after o.image o.input (events ++ serial_from o.image s (pace_after o.image o.input events))).count ≤ s.steps }
    ensures done { (o : Setting) (s : Schedule) (events : List Event) → IsSetting o → 1 ≤ s.period → 1 ≤ s.quantum → IsLegalIn o events → IsPaced o.image o.input s.period events → (pace_after o.image o.input events).count ≤ s.steps → is_done s (pace_after o.image o.input (events ++ serial_from o.image s (pace_after o.image o.input events))) ≡ true }
{
    paced_events_are_allowed();
}
