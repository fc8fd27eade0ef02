// SPDX-License-Identifier: Apache-2.0
//! What is true of the bound images of files that can be bound, as clauses of functions that do nothing.
#![tactic(auto)]

ghost use Rattle.std.specs.Prelude.{◌≡◌, ◌≢◌, ◌⊎◌, ◌<◌, ◌≤◌, ℕ, List, [], None, Some, true, find, length, slice_get, slice_index_or};
ghost use Rattle.sh_types.specs.declared.code.Function.{Function};
ghost use Rattle.sh_types.specs.declared.code.Pair.{Pair};
ghost use Rattle.sh_types.specs.declared.code.Site.TheVariants.{Plain};
ghost use Rattle.sh_types.specs.declared.relocs.Reloc.{Reloc};
ghost use Rattle.elf_rules.specs.Bindable.{IsBindable, rising_by};
ghost use Rattle.elf_rules.specs.Coded.{IsCoded};
ghost use Rattle.elf_rules.specs.ElfRules.{first_failing, reloc_rules};
ghost use Rattle.elf_rules.specs.Relocs.{relocs_of};
ghost use Rattle.image_rules.specs.declared.tokens.Token.{Token};
ghost use Rattle.image_rules.specs.Binding.{rows_of};
ghost use Rattle.image_rules.specs.Bound.{bound_image, takes_byte, tokens_of};
ghost use Rattle.image_rules.specs.Refusals.{record_refusal};
ghost use Rattle.sh_machines.specs.Class.{Source, class_at, source_of};
ghost use Rattle.bound_law.specs.Targets.{IsTarget};

/// The bound image of a file that can be bound has functions that rise and share no byte, with their words, and an entry
/// at the start of one. Where it has one region, that is the first stack.
pub fn bound_images_are_coded()
    ensures { (bytes : List ℕ) → IsBindable bytes → IsCoded (bound_image bytes) }
{}

/// In a file whose relocation records hold, the first token that takes the byte at an address is the same one in file
/// order and by rising addresses.
pub fn tokens_are_apart()
    ensures { (bytes : List ℕ) (functions : List Function) (labels : List Pair) (address : ℕ) → first_failing reloc_rules bytes ≡ None → find (takes_byte address) (rising_by (λ (t : Token). t.place) (tokens_of functions labels (relocs_of bytes))) ≡ find (takes_byte address) (tokens_of functions labels (relocs_of bytes)) }
{}

/// The classes of a bound image are those of its words, by the records of its file; behind the last word of a function
/// and behind the last function there is none.
pub fn bound_sites_are_classes()
    ensures sites { (bytes : List ℕ) (f k : ℕ) → f < length (bound_image bytes).functions → k < length (slice_index_or (bound_image bytes).words f []) → slice_index_or (slice_index_or (bound_image bytes).sites f []) k Plain ≡ class_at (source_of (bound_image bytes) (relocs_of bytes) f) k }
    ensures none { (bytes : List ℕ) (f k : ℕ) → (length (bound_image bytes).functions ≤ f) ⊎ (length (slice_index_or (bound_image bytes).words f []) ≤ k) → slice_index_or (slice_index_or (bound_image bytes).sites f []) k Plain ≡ Plain }
{}

/// A class names a word of its function, or a function that is not the entry; a tail may lead back to the entry function
/// from that function alone.
pub fn classes_name_targets()
    ensures { (b : Source) (k : ℕ) → IsTarget b (class_at b k) }
{}

/// A row is a function, and not the entry where no record refuses the entry function.
pub fn rows_are_functions()
    ensures low { (functions : List Function) (relocs : List Reloc) (k g : ℕ) → slice_get (rows_of functions relocs) k ≡ Some g → g < length functions }
    ensures other { (functions : List Function) (relocs : List Reloc) (entry k g : ℕ) (f : Function) → slice_get functions entry ≡ Some f → record_refusal true f relocs ≡ None → slice_get (rows_of functions relocs) k ≡ Some g → g ≢ entry }
{}
