// SPDX-License-Identifier: Apache-2.0
//! What is true of the list of a function's classes, as clauses of a function that does nothing.
ghost use Rattle.std.specs.Prelude.{◌≡◌, ◌<◌, ◌≤◌, ℕ, length, slice_index_or};
ghost use Rattle.sh_types.specs.declared.code.Site.TheVariants.{Plain};
ghost use Rattle.sh_machines.specs.Class.{Source, class_at};
ghost use Rattle.image_rules.specs.Bound.{classes_of};

/// The list has the class of each word at the word's number, and is as long as the words.
pub fn words_have_their_classes()
    ensures count { (b : Source) → length (classes_of b) ≡ length b.words }
    ensures class { (b : Source) (k : ℕ) → k < length b.words → slice_index_or (classes_of b) k Plain ≡ class_at b k }
    ensures none { (b : Source) (k : ℕ) → length b.words ≤ k → slice_index_or (classes_of b) k Plain ≡ Plain }
{}
