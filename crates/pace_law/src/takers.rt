// SPDX-License-Identifier: Apache-2.0
//! Who takes a turn.
ghost use Rattle.std.specs.Prelude.{◌≡◌, ℕ, true, List};
ghost use Rattle.sh_types.specs.declared.code.Image.{Image};
ghost use Rattle.sh_machines.specs.Serial.{next_hart};
ghost use Rattle.sh_machines.specs.Unmoved.{goes_still, can_go, unmoved_run};

/// As long as the run goes on, the hart of the next turn can go.
#[tactic(auto, using(crate::proofs::Next::next_goes))]
pub fn the_next_hart_can_go()
    ensures { (i : Image) (input ns : List ℕ) (low : ℕ) → goes_still (unmoved_run i input ns).end ≡ true → can_go (unmoved_run i input ns) (next_hart low (unmoved_run i input ns)) ≡ true }
{}
