// SPDX-License-Identifier: Apache-2.0
//! Laws of what is read, as clauses of functions that do nothing.
ghost use Rattle.std.specs.Prelude.{◌≤◌, List, ℕ, length};
ghost use Rattle.asm_text.specs.Sizes.{items_size};
ghost use Rattle.asm_text.specs.Source.{source_of};

/// The names that the statements of a text define, and one byte more for each statement, come to no more bytes than the
/// text has.
#[tactic(auto, using(crate::proofs::Sizing::source_size))]
pub fn statements_lie_in_their_text()
    ensures { (text : List ℕ) → items_size (source_of text).items ≤ length text }
{}
