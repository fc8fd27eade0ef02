// SPDX-License-Identifier: Apache-2.0
//! What is read off the rows, as the clause of a function that does nothing.
ghost use Rattle.std.specs.Prelude.{◌≡◌, List, ℕ, Option, Some};
ghost use Rattle.sh_base.specs.Told.{FileAnswer};
ghost use Rattle.cli_words.specs.declared.words.Command.{Command};
ghost use Rattle.guest_dues.specs.declared.due.Due.{Due};
ghost use Rattle.cli_rows.specs.Rows.{row_of, comes_to};
ghost use Rattle.cli_rows.specs.Said.{DueIsSaid};

/// What may be due at all.
pub fn dues_are_said()
    ensures { (command : Option Command) (seed : List ℕ) (loads : List FileAnswer) (due : Due) → comes_to (row_of command seed) loads ≡ Some due → DueIsSaid due }
{}
