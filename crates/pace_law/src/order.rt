// SPDX-License-Identifier: Apache-2.0
//! A serial run that is known.
ghost use Rattle.std.specs.Prelude.{◌≡◌, Some, [], ◌∷◌, length, take};
ghost use Rattle.sh_types.specs.declared.runs.End.TheVariants as end;
ghost use Rattle.sh_machines.specs.Event.{written};
ghost use Rattle.sh_machines.specs.PlainSerial.{plain_list};
ghost use Rattle.sh_machines.specs.Serial.{serial_list};
ghost use Rattle.sh_machines.specs.Unmoved.{unmoved_run};
ghost use Rattle.sh_law.specs.Example.{example};
ghost use Rattle.pace_law.specs.Order.{small_schedule, first_events};

/// How the serial order of the small image begins, and where it ends with and without layouts: a hart that is started
/// takes its turns, and layout 2 comes at its count.
#[tactic(auto, using(crate::proofs::Ordered::begins, crate::proofs::Ordered::counts, crate::proofs::Ordered::plain_counts, crate::proofs::Ordered::plain_ends))]
pub fn orders_are_met()
    ensures begins { take 12 (serial_list example (72 ∷ 105 ∷ []) small_schedule) ≡ first_events }
    ensures counts { length (written (serial_list example (72 ∷ 105 ∷ []) small_schedule)) ≡ 90 }
    ensures plain { length (plain_list example (72 ∷ 105 ∷ []) 6 100) ≡ 90 }
    ensures end { (unmoved_run example (72 ∷ 105 ∷ []) (plain_list example (72 ∷ 105 ∷ []) 6 100)).end ≡ Some (end.Exit 18) }
{}
