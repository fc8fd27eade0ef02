// SPDX-License-Identifier: Apache-2.0
//! What is due for a run of a file that is never moved.
ghost use Rattle.std.specs.Prelude.{◌≡◌, IfOk, string_bytes};
ghost use Rattle.sh_machines.specs.Fine.{IsFine};
ghost use Rattle.sh_types.specs.Image.{sizes_of};
ghost use Rattle.sh_types.specs.Sized.{IsSized};
ghost use Rattle.std.specs.List.{All};
ghost use Rattle.load_law.specs.Readable.{IsFull};
ghost use Rattle.plain_memory.specs.Laid.{AreApart};
ghost use Rattle.thread_step.specs.Numbered.{IsWorded};
ghost use Rattle.ref_machine.specs.Standing.{run_of};
ghost use Rattle.cli_words.specs.Ranges.{IsInRange};
ghost use Rattle.guest_dues.specs.Plain.{count_line, plain_report, stood_due, plain_due};

use crate::Due;
use crate::run::status_of;
use cli_words::Opts;
use period_report::end_line;
use ref_machine::Plain;
use sh_types::{Bytes, End, Image, NoMemory};
use std::alloc::{AllocError, Global};

#[tactic(auto, unfolding(crate::specs::Plain::count_line))]
fn counted(alloc: Global, count: u64) -> Result<String, AllocError>
    ensures { IfOk result (λ text. string_bytes text ≡ count_line count) }
{
    format!(in alloc; "instructions {count}\n")
}

/// How many instructions there were, and the end.
fn report(alloc: Global, count: u64, end: Option<End>) -> Result<Bytes, NoMemory>
    ensures { IfOk result (λ text. text ≡ plain_report count end) }
{
    let mut text = counted(alloc, count)?;
    let last = end_line(alloc, end)?;
    text.push_str(last.as_str())?;
    Ok(Bytes::from_vec(text.into_bytes()))
}

/// What is due for a machine that was run.
fn stood(alloc: Global, machine: &Plain) -> Result<Due, NoMemory>
    ensures { IfOk result (λ due. due ≡ stood_due machine.now.count (run_of machine.now).state) }
{
    let end = machine.end();
    let out = Bytes::from_slice(alloc, machine.output())?;
    let report = report(alloc, machine.count(), end)?;
    Ok(Due {
        store: None,
        out: Some(out),
        report: Some(report),
        status: status_of(end),
        end,
        machine: None,
    })
}

/// What is due for a run of the image that never moves it: what the guest writes, how many instructions there were, and
/// the end. Err only where memory is refused.
pub fn of_plain(alloc: Global, image: Image, input: Bytes, opts: &Opts) -> Result<Due, NoMemory>
    requires fine { IsFine image }
    requires sized { IsSized (sizes_of image) }
    requires worded { IsWorded image }
    requires apart { AreApart image.regions }
    requires full { All IsFull image.regions }
    requires range { IsInRange opts.now }
    ensures { IfOk result (λ due. due ≡ plain_due opts.now image input) }
{
    let mut machine = Plain::new(alloc, image, input)?;
    machine.run(opts.quantum, opts.steps)?;
    stood(alloc, &machine)
}
