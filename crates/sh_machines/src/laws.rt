// SPDX-License-Identifier: Apache-2.0
//! Laws of the definitions, as clauses of functions that do nothing.
ghost use Rattle.std.specs.Prelude.{◌≡◌, ℕ, pos, Some, None, [], ◌∷◌, true};
ghost use Rattle.sh_types.specs.declared.code.CodeRef.TheVariants.{Root};
ghost use Rattle.rv_table.specs.declared.instructions.Reservation.{Reservation};
ghost use Rattle.sh_types.specs.declared.runs.Stored.{Stored};
ghost use Rattle.rv_table.specs.Arithmetic.{Meets};
ghost use Rattle.sh_types.specs.declared.runs.Hart.{Hart};
ghost use Rattle.rv_table.specs.declared.instructions.Op.TheVariants.{Sd, ScW, ScD};
ghost use Rattle.rv_table.specs.Decoding.{made};
ghost use Rattle.sh_machines.specs.Environment.{Reads, call_of};
ghost use Rattle.sh_machines.specs.Kind.{Stores, Atomics};
ghost use Rattle.sh_machines.specs.Need.{Need, Goes, Puts, answered, shares, stored_at, touched};
ghost use Rattle.sh_machines.specs.Small.{small_memory, holder, made_by, short_read};
ghost use Rattle.sh_machines.specs.Unmoved.{Number, reserves, steps, set_thread, threads_lose, new_thread};
ghost use Rattle.sh_machines.specs.Shuffled.{Owned};

/// A reservation shares bytes with what was stored exactly where some byte is in both.
#[tactic(auto, using(crate::proofs::Sharing::shared, crate::proofs::Sharing::meeting))]
pub fn reservations_share_bytes()
    ensures some { (r : Reservation) (s : Stored) → shares r s ≡ true → Meets r s.address s.length }
    ensures only { (r : Reservation) (s : Stored) → Meets r s.address s.length → shares r s ≡ true }
{}

/// What comes of an instruction depends on the hart and on the one word that it touches, if any: where the word is the
/// same, so is the outcome.
#[tactic(auto, using(crate::proofs::Seeing::sees))]
pub fn instructions_see_one_word()
    ensures { (need : Need Hart Owned) (m n : ℕ → Owned) → ((w : ℕ) → touched need ≡ Some w → m w ≡ n w) → answered need m ≡ answered need n }
{}

/// What some instructions come to, by values. A hart's store leaves its own reservation, and takes from another hart the
/// one that shares a byte with it. A store-conditional succeeds where the reservation has its address and width, and on
/// another width it fails. A hart that is started returns to the root. A read of more than is left gives what is left.
#[tactic(auto, using(crate::proofs::Small::others_lose, crate::proofs::Small::stores_out, crate::proofs::Small::held_out, crate::proofs::Small::other_width_out, crate::proofs::Small::started_out, crate::proofs::Small::short_out))]
pub fn instructions_come_out()
    ensures others { threads_lose 0 (Some (stored_at 0x20000 8)) (holder 0 ∷ holder 1 ∷ []) ≡ holder 0 ∷ reserves (holder 1) None ∷ [] }
    ensures stored { made_by (Stores (made Sd 0 5 6 (pos 0))) ≡ Puts (steps (holder 0)) 0x4000 (Number 9) (Some (stored_at 0x20000 8)) }
    ensures held { made_by (Atomics (made ScD 10 5 6 (pos 0))) ≡ Puts (reserves (set_thread (holder 0) 10 0) None) 0x4000 (Number 9) (Some (stored_at 0x20000 8)) }
    ensures other_width { made_by (Atomics (made ScW 10 5 6 (pos 0))) ≡ Goes (reserves (set_thread (holder 0) 10 1) None) }
    ensures started { (new_thread 1 2 3 4 5).ra ≡ Some Root }
    ensures short { call_of small_memory [] short_read ≡ Reads 0x20000 (1 ∷ 2 ∷ 3 ∷ []) }
{}
