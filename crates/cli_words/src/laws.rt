// SPDX-License-Identifier: Apache-2.0
//! What is true of every command.
ghost use Rattle.std.specs.Prelude.{◌≡◌, List, ℕ, Some};
ghost use Rattle.cli_words.specs.declared.words.Command.{Command};
ghost use Rattle.cli_words.specs.Ranges.{HasRanges};
ghost use Rattle.cli_words.specs.Words.{command_of};

/// The numbers of the options are in their ranges.
pub fn numbers_are_in_range()
    ensures { (words : List (List ℕ)) (command : Command) → command_of words ≡ Some command → HasRanges command }
{}
