// SPDX-License-Identifier: Apache-2.0
//! What is read off the rows and off every answer, as clauses of functions that do nothing.
ghost use Rattle.std.specs.Prelude.{◌≡◌, List, ◌∷◌, ℕ, Option, Some};
ghost use Rattle.sh_base.specs.Told.{FileAnswer};
ghost use Rattle.sh_base.specs.Tells.{gave};
ghost use Rattle.cli_words.specs.declared.words.Command.{Command};
ghost use Rattle.guest_dues.specs.declared.due.Due.{Due};
ghost use Rattle.shuf_cli.specs.declared.due.Done.{Done};
ghost use Rattle.shuf_cli.specs.Answer.{FilesState, World};
ghost use Rattle.shuf_cli.specs.Asked.{Loaded};
ghost use Rattle.shuf_cli.specs.Headline.{Answered};
ghost use Rattle.cli_rows.specs.Rows.{Row, Load, comes_to};
ghost use Rattle.shuf_cli.specs.Said.{AnswerIsSaid, IsReadable, Lacks};

/// What the status of an answer says by itself.
pub fn answers_are_said()
    ensures { (command : Option Command) (seed : List ℕ) (w : World) (done : Done) → Answered command seed w done → AnswerIsSaid command w done }
{}

/// The first load that a row asks for, where files tell what they hold: a file within the limit is what it gave, unless
/// a load of the name failed in this call; where none is held, or a longer one, a line on the name is due.
#[tactic(auto, using(crate::proofs::Readable::lacking))]
pub fn held_files_are_loaded()
    ensures given { (name : List ℕ) (limit : ℕ) (next : List ℕ → Row) (files files' : FilesState) (loads : List FileAnswer) (due : Due) (file : List ℕ)
        → Loaded (Load name limit next) files files' loads → comes_to (Load name limit next) loads ≡ Some due → IsReadable files files' name limit file
        → (rest : List FileAnswer) × (loads ≡ gave name file ∷ rest) × (comes_to (next file) rest ≡ Some due) }
    ensures lacking { (name : List ℕ) (limit : ℕ) (next : List ℕ → Row) (files files' : FilesState) (loads : List FileAnswer) (due : Due)
        → Loaded (Load name limit next) files files' loads → comes_to (Load name limit next) loads ≡ Some due → Lacks files.held name limit → due.status ≡ 11 }
{}
