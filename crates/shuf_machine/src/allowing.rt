// SPDX-License-Identifier: Apache-2.0
//! Events that are allowed are not refused.
ghost use Rattle.std.specs.Prelude.{◌≡◌, ℕ, ◌-◌, None};
ghost use Rattle.sh_types.specs.declared.runs.Event.TheVariants.{Run, Migrate, Publish, Erase};
ghost use Rattle.sh_machines.specs.Event.{Allowed};
ghost use Rattle.sh_machines.specs.Shuffled.{Setting, Shuffled};
ghost use Rattle.shuf_machine.specs.Refusal.{run_no, migrate_no, publish_no, erase_no};

/// Where an event is allowed there is no reason against it, so that a machine refuses it only for want of memory.
#[tactic(auto, using(crate::proofs::Enabled::run_enabled, crate::proofs::Enabled::migrate_enabled, crate::proofs::Enabled::publish_enabled, crate::proofs::Enabled::erase_enabled, crate::proofs::Enabled::erased_older))]
pub fn allowed_events_are_not_refused()
    ensures run { (o : Setting) (s : Shuffled) (n k : ℕ) → Allowed o (Run n k) s → run_no s n ≡ None }
    ensures migrate { (o : Setting) (s : Shuffled) (n : ℕ) → Allowed o (Migrate n) s → migrate_no s n ≡ None }
    ensures publish { (o : Setting) (s : Shuffled) (k : ℕ) → Allowed o (Publish k) s → publish_no s k ≡ None }
    ensures erase { (o : Setting) (s : Shuffled) (k : ℕ) → Allowed o (Erase k) s → erase_no s ≡ None }
    ensures older { (o : Setting) (s : Shuffled) (k : ℕ) → Allowed o (Erase k) s → k ≡ s.newest - 1 }
{}
