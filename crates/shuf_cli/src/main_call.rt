// SPDX-License-Identifier: Apache-2.0
//! The top call with workers.
ghost use Rattle.cli_words.specs.Texts.{texts};
ghost use Rattle.cli_words.specs.Words.{command_of};
ghost use Rattle.shuf_cli.specs.Headline.{Answered};

use crate::{Done, serial_command};
use sh_base::{Files, Gate, Sink};
use std::alloc::Global;
use std::sync::Wait;
use std::thread::Threads;

/// Does a command, as `serial_command`. `gate` is for the workers of a run, of which there are none yet.
pub fn shuffler_main<R: Threads + Wait + Sync, F: Files, O: Sink, E: Sink, G: Gate + Sync>(
    rt: &R,
    alloc: Global,
    words: &[String],
    files: &mut F,
    out: &mut O,
    report: &mut E,
    seed: &[u8; 32],
    _gate: &G,
) -> Done
    ensures answer { Answered (command_of (texts words.now)) seed.now (record {
      files = record { held = F.held files.old; faults = F.faults files.old; answered = F.answered files.old };
      files' = record { held = F.held files.new; faults = F.faults files.new; answered = F.answered files.new };
      out = record { written = O.written out.old; taken = O.taken out.old; faults = O.faults out.old };
      out' = record { written = O.written out.new; taken = O.taken out.new; faults = O.faults out.new };
      report = record { written = E.written report.old; taken = E.taken report.old; faults = E.faults report.old };
      report' = record { written = E.written report.new; taken = E.taken report.new; faults = E.faults report.new };
    }) result }
{
    serial_command(rt, alloc, words, files, out, report, seed)
}
