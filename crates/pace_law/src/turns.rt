// SPDX-License-Identifier: Apache-2.0
//! The serial order of a run that is never moved.
ghost use Rattle.std.specs.Prelude.{◌≡◌, ℕ, ◌≤◌, List, length, true};
ghost use Rattle.sh_types.specs.declared.code.Image.{Image};
ghost use Rattle.sh_machines.specs.Event.{written};
ghost use Rattle.sh_machines.specs.Next.{all_go};
ghost use Rattle.sh_machines.specs.PlainSerial.{plain_list, plain_turns};
ghost use Rattle.sh_machines.specs.Serial.{Schedule, serial_list};
ghost use Rattle.sh_machines.specs.Unmoved.{goes_still, unmoved_run, unmoved_start};
ghost use Rattle.pace_law.specs.Plainly.{AreWithin};

/// In the serial order without layouts each instruction is of a hart that is live where it stands. There are at most
/// `steps`, and exactly so many where the run has not ended.
#[tactic(auto, using(crate::proofs::Plain::plain_go, crate::proofs::Plain::plain_few, crate::proofs::Plain::plain_full))]
pub fn plain_lists_run_to_their_end()
    ensures live { (i : Image) (input : List ℕ) (quantum steps : ℕ) → all_go i (plain_list i input quantum steps) (unmoved_start i input) ≡ true }
    ensures few { (i : Image) (input : List ℕ) (quantum steps : ℕ) → length (plain_list i input quantum steps) ≤ steps }
    ensures full { (i : Image) (input : List ℕ) (quantum steps : ℕ) → 1 ≤ quantum → goes_still (unmoved_run i input (plain_list i input quantum steps)).end ≡ true → length (plain_list i input quantum steps) ≡ steps }
{}

/// Where no multiple of the period lies inside a turn, the instructions of the serial list are those of the list without
/// layouts; so they are where the period is not below the steps.
pub fn plain_lists_are_serial()
    ensures within { (i : Image) (input : List ℕ) (s : Schedule) → 1 ≤ s.period → AreWithin s.period (plain_turns i s.quantum s.steps 0 (unmoved_start i input)) → written (serial_list i input s) ≡ plain_list i input s.quantum s.steps }
    ensures short { (i : Image) (input : List ℕ) (s : Schedule) → 1 ≤ s.period → s.steps ≤ s.period → written (serial_list i input s) ≡ plain_list i input s.quantum s.steps }
{}
