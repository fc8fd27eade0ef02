// SPDX-License-Identifier: Apache-2.0
//! The law on the journal of a run.
ghost use Rattle.std.specs.Prelude.{◌≡◌, List, ℕ, ◌≤◌, Some};
ghost use Rattle.sh_machines.specs.Pace.{IsPaced, pace_after};
ghost use Rattle.sh_types.specs.declared.code.Image.{Image};
ghost use Rattle.cli_words.specs.declared.options.Opts.{Opts};
ghost use Rattle.cli_words.specs.declared.words.Command.{Command};
ghost use Rattle.cli_words.specs.Words.{command_of};
ghost use Rattle.guest_dues.specs.Run.{past_of};

use cli_words::numbers_are_in_range;
use pace_law::serial_lists_are_paced;

/// The journal of a run, whatever the words are, keeps pace with its period, and has at most its steps.
pub fn runs_keep_pace()
    ensures paced { (words : List (List ℕ)) (name : List ℕ) (opts : Opts) → command_of words ≡ Some (Command.Run name opts)
        → (image : Image) (file input seed : List ℕ) → IsPaced image input opts.period (past_of opts image file input seed).journal }
    ensures few { (words : List (List ℕ)) (name : List ℕ) (opts : Opts) → command_of words ≡ Some (Command.Run name opts)
        → (image : Image) (file input seed : List ℕ) → (pace_after image input (past_of opts image file input seed).journal).count ≤ opts.steps }
{
    numbers_are_in_range();
    serial_lists_are_paced();
}
