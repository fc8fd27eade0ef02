// SPDX-License-Identifier: Apache-2.0
//! How what is due is delivered: the store first, then out, then the report.
ghost use Rattle.std.specs.Prelude.{◌≡◌, ◌≢◌, None, IfOk, OnErr, MatchOption, IsSomeAnd};
ghost use Rattle.std.specs.Bool.{OnTrue, OnFalse};
ghost use Rattle.guest_dues.specs.declared.due.Due.{Due};
ghost use Rattle.guest_dues.specs.declared.due.FileStore.{FileStore};
ghost use Rattle.shuf_cli.specs.Answer.{Took, Refused, Wrote, CameOut, Grows, IsKept, IsStored, IsUnstored, done_by, done_of};
ghost use Rattle.cli_rows.specs.Lines.{unwritable_line};

use crate::{Done, Outcome};
use cli_rows::unwritable;
use guest_dues::{Due, FileStore};
use sh_base::{FileFault, Files, Sink};
use sh_types::{Bytes, NoMemory};
use std::alloc::Global;

const UNSTORED: u8 = 11;

const SINK_FAILED: u8 = 13;

const NO_MEMORY: u8 = 14;

/// Writes the piece, if there is one, and says whether all of it was taken.
fn put<S: Sink>(sink: &mut S, bytes: &Option<Bytes>) -> bool
    ensures took { OnTrue result (Took bytes.now (record { written = S.written sink.old; taken = S.taken sink.old; faults = S.faults sink.old })
        (record { written = S.written sink.new; taken = S.taken sink.new; faults = S.faults sink.new })) }
    ensures refused { OnFalse result (Refused bytes.now (record { written = S.written sink.old; taken = S.taken sink.old; faults = S.faults sink.old })
        (record { written = S.written sink.new; taken = S.taken sink.new; faults = S.faults sink.new })) }
{
    match bytes {
        None => true,
        Some(bytes) => match sink.write(bytes.as_slice()) {
            Ok(()) => true,
            Err(_) => false,
        },
    }
}

/// Writes the one piece to out and the other to the report, and answers the status. After a write that failed nothing
/// is written, and the status is 13.
fn give<O: Sink, E: Sink>(
    for_out: &Option<Bytes>,
    for_report: &Option<Bytes>,
    status: u8,
    out: &mut O,
    report: &mut E,
) -> u8
    requires { status ≢ 13 }
    ensures { Wrote for_out.now for_report.now status (record { written = O.written out.old; taken = O.taken out.old; faults = O.faults out.old })
        (record { written = O.written out.new; taken = O.taken out.new; faults = O.faults out.new })
        (record { written = E.written report.old; taken = E.taken report.old; faults = E.faults report.old })
        (record { written = E.written report.new; taken = E.taken report.new; faults = E.faults report.new }) result }
{
    if !put(out, for_out) || !put(report, for_report) {
        SINK_FAILED
    } else {
        status
    }
}

/// Stores the bytes under the name, and says whether all of them were.
fn put_file<F: Files>(store: &FileStore, files: &mut F) -> Result<bool, NoMemory>
    ensures kept { IfOk result (λ yes. IsKept store.now yes (record { held = F.held files.old; faults = F.faults files.old; answered = F.answered files.old })
        (record { held = F.held files.new; faults = F.faults files.new; answered = F.answered files.new })) }
    ensures memory { OnErr result (F.held files.new ≡ F.held files.old) }
    ensures answered { F.answered files.new ≡ F.answered files.old }
    ensures grown { Grows (record { held = F.held files.old; faults = F.faults files.old; answered = F.answered files.old })
        (record { held = F.held files.new; faults = F.faults files.new; answered = F.answered files.new }) }
{
    match files.store(store.name.as_str(), store.bytes.as_slice()) {
        Ok(()) => Ok(true),
        Err(FileFault::Failed) => Ok(false),
        Err(FileFault::NoMemory) => Err(NoMemory),
    }
}

/// Makes the store, if one is due. Where it fails this line is due in place of all else. It is made before, so that
/// no memory is taken behind the store.
fn keep<F: Files>(
    alloc: Global,
    store: &Option<FileStore>,
    files: &mut F,
) -> Result<Option<Bytes>, NoMemory>
    ensures kept { IfOk result (λ instead. MatchOption instead
        (IsStored store.now (record { held = F.held files.old; faults = F.faults files.old; answered = F.answered files.old })
        (record { held = F.held files.new; faults = F.faults files.new; answered = F.answered files.new }))
        (λ line. IsSomeAnd store.now (λ (s : FileStore). IsUnstored s (record { held = F.held files.old; faults = F.faults files.old; answered = F.answered files.old })
        (record { held = F.held files.new; faults = F.faults files.new; answered = F.answered files.new }) × (line ≡ unwritable_line s.name)))) }
    ensures memory { OnErr result (F.held files.new ≡ F.held files.old) }
    ensures answered { F.answered files.new ≡ F.answered files.old }
    ensures grown { Grows (record { held = F.held files.old; faults = F.faults files.old; answered = F.answered files.old })
        (record { held = F.held files.new; faults = F.faults files.new; answered = F.answered files.new }) }
{
    match store {
        None => Ok(None),
        Some(store) => {
            let line = unwritable(alloc, store.name.as_str())?;
            if put_file(store, files)? {
                Ok(None)
            } else {
                Ok(Some(line))
            }
        }
    }
}

/// Delivers what is due, and says how. Err only where memory is refused, and then nothing is stored or written.
pub fn deliver<F: Files, O: Sink, E: Sink>(
    alloc: Global,
    due: &Due,
    files: &mut F,
    out: &mut O,
    report: &mut E,
) -> Result<Outcome, NoMemory>
    requires { due.now.status ≢ 13 }
    ensures delivered { IfOk result (λ o. CameOut due.now (record {
      files = record { held = F.held files.old; faults = F.faults files.old; answered = F.answered files.old };
      files' = record { held = F.held files.new; faults = F.faults files.new; answered = F.answered files.new };
      out = record { written = O.written out.old; taken = O.taken out.old; faults = O.faults out.old };
      out' = record { written = O.written out.new; taken = O.taken out.new; faults = O.faults out.new };
      report = record { written = E.written report.old; taken = E.taken report.old; faults = E.faults report.old };
      report' = record { written = E.written report.new; taken = E.taken report.new; faults = E.faults report.new };
    }) o) }
    ensures memory { OnErr result ((F.held files.new ≡ F.held files.old) × (out.new ≡ out.old) × (report.new ≡ report.old)) }
    ensures answered { F.answered files.new ≡ F.answered files.old }
    ensures grown { Grows (record { held = F.held files.old; faults = F.faults files.old; answered = F.answered files.old })
        (record { held = F.held files.new; faults = F.faults files.new; answered = F.answered files.new }) }
{
    let instead = keep(alloc, &due.store, files)?;
    match instead {
        None => Ok(Outcome {
            status: give(&due.out, &due.report, due.status, out, report),
            stored: true,
        }),
        Some(line) => Ok(Outcome {
            status: give(&None, &Some(line), UNSTORED, out, report),
            stored: false,
        }),
    }
}

/// The answer with the end and the machine that were due.
fn whole(due: Due, status: u8) -> Done
    ensures { result ≡ record { status = status; end = due.end; machine = due.machine } }
{
    Done {
        status,
        end: due.end,
        machine: due.machine,
    }
}

/// The answer without an end and a machine.
fn without_run(status: u8) -> Done
    ensures { result ≡ record { status = status; end = None; machine = None } }
{
    Done {
        status,
        end: None,
        machine: None,
    }
}

/// The answer of an outcome: where the store failed there is no end and no machine.
fn ended(due: Due, outcome: Outcome) -> Done
    ensures { result ≡ done_by due outcome }
{
    if outcome.stored {
        whole(due, outcome.status)
    } else {
        without_run(outcome.status)
    }
}

/// The outcome, and that of a store that failed with the status 14 where memory was refused.
fn settled(outcome: Result<Outcome, NoMemory>) -> Outcome
    ensures { (due : Due) → done_by due result ≡ done_of due outcome }
{
    match outcome {
        Ok(outcome) => outcome,
        Err(NoMemory) => Outcome {
            status: NO_MEMORY,
            stored: false,
        },
    }
}

/// The answer, by what was due and how it was delivered.
pub fn finish(due: Due, outcome: Result<Outcome, NoMemory>) -> Done
    ensures { result ≡ done_of due outcome }
{
    ended(due, settled(outcome))
}

/// The answer where memory was refused.
pub fn no_memory() -> Done
    ensures { result ≡ record { status = 14; end = None; machine = None } }
{
    without_run(NO_MEMORY)
}
