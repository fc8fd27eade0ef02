// SPDX-License-Identifier: Apache-2.0
//! The top call: all that the program does.
ghost use Rattle.cli_words.specs.Texts.{texts};
ghost use Rattle.cli_words.specs.Words.{command_of};
ghost use Rattle.shuf_cli.specs.Headline.{Answered};

use crate::Done;
use crate::deliver::{deliver, finish, no_memory};
use crate::rows::make_due;
use sh_base::{Files, Sink};
use std::alloc::Global;
use std::thread::Threads;

/// Does a command: `words` are those of the command line, `seed` is that of the layouts where the words give none. It
/// loads from `files`. For a run, moved or plain, it writes to `out` what the guest wrote and to `report` the report on
/// the run; for a check it writes to `out` the list of the executable; for an assembly it stores the executable in
/// `files` and writes nothing. Else it writes one line to `report`. A guest of every accepted file is run, until it ends
/// or has had as many instructions as the words give, with the input that they name, and where it is moved with a new
/// layout after every period. It waits for nobody.
pub fn serial_command<R: Threads + Sync, F: Files, O: Sink, E: Sink>(
    rt: &R,
    alloc: Global,
    words: &[String],
    files: &mut F,
    out: &mut O,
    report: &mut E,
    seed: &[u8; 32],
) -> Done
    ensures answer { Answered (command_of (texts words.now)) seed.now (record {
      files = record { held = F.held files.old; faults = F.faults files.old; answered = F.answered files.old };
      files' = record { held = F.held files.new; faults = F.faults files.new; answered = F.answered files.new };
      out = record { written = O.written out.old; taken = O.taken out.old; faults = O.faults out.old };
      out' = record { written = O.written out.new; taken = O.taken out.new; faults = O.faults out.new };
      report = record { written = E.written report.old; taken = E.taken report.old; faults = E.faults report.old };
      report' = record { written = E.written report.new; taken = E.taken report.new; faults = E.faults report.new };
    }) result }
{
    let Ok(due) = make_due(rt, alloc, words, files, seed) else {
        return no_memory();
    };
    let outcome = deliver(alloc, &due, files, out, report);
    finish(due, outcome)
}
