// SPDX-License-Identifier: Apache-2.0
//! Laws of the words and of the marks, as clauses of functions that do nothing.
ghost use Rattle.std.specs.Prelude.{◌≡◌, ◌<◌, ◌≤◌, List, ℕ, Some, None, length, map};
ghost use Rattle.std.specs.List.{All};
ghost use Rattle.rv_table.specs.declared.instructions.Instr.{Instr};
ghost use Rattle.rv_table.specs.Instruction.{IsInstr, word_of};
ghost use Rattle.rv_table.specs.Decoding.{decoded};
ghost use Rattle.asm_text.specs.Source.{source_of};
ghost use Rattle.asm_text.specs.declared.statements.Item.{Item};
ghost use Rattle.asm_places.specs.Places.{first_place};
ghost use Rattle.asm_places.specs.Laying.{text_end};
ghost use Rattle.asm_places.specs.Symbols.{symbols_of};
ghost use Rattle.rv_asm.specs.Checking.{IsChecked};
ghost use Rattle.rv_asm.specs.Data.{target_in};
ghost use Rattle.rv_asm.specs.Fitting.{AllDecode};
ghost use Rattle.rv_asm.specs.Marks.{marks_of, marked_names, name_of_symbol};
ghost use Rattle.rv_asm.specs.Object.{object_of};
ghost use Rattle.rv_asm.specs.Passes.{fault_of};
ghost use Rattle.rv_asm.specs.Whole.{IsWhole};

use asm_text::statements_lie_in_their_text;

/// The word of an instruction of the table decodes to it; so does the word of each instruction of a source that has no
/// fault.
#[tactic(auto, using(crate::proofs::Spelling::word_decodes, crate::proofs::Spelling::checked_decode))]
pub fn words_decode()
    ensures word { (i : Instr) → IsInstr i → decoded (word_of i) ≡ Some i }
    ensures source { (items : List Item) → IsChecked items → AllDecode (target_in items) (text_end items) first_place items }
{}

/// The number of each mark is that of a symbol; in a source that has no fault this symbol has the name that stands in the
/// statement, and for the second mark of `la` that of its own `.La` label.
pub fn marks_name_symbols()
    ensures numbers { (items : List Item) → All (λ m. m.symbol < length (symbols_of items)) (marks_of items) }
    ensures names { (items : List Item) → IsChecked items → map (λ m. name_of_symbol (symbols_of items) m.symbol) (marks_of items) ≡ map Some (marked_names items) }
{}

/// What the object of each source has that has no fault and at most 64 MiB.
pub fn objects_are_whole()
    ensures { (text : List ℕ) → length text ≤ 67108864 → fault_of text ≡ None → IsWhole (source_of text).items (object_of text) }
{
    statements_lie_in_their_text();
}
