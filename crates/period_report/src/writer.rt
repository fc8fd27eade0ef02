// SPDX-License-Identifier: Apache-2.0
//! The report on a run.
ghost use Rattle.std.specs.Prelude.{◌≡◌, ◌<◌, ◌^◌, ◌++◌, IfOk, string_bytes};
ghost use Rattle.shuf_machine.specs.Past.{state_of};
ghost use Rattle.layout_maker.specs.Cell.{cell_of};
ghost use Rattle.period_report.specs.Kept.{IsKept};
ghost use Rattle.period_report.specs.Numbered.{IsNext, IsNumbered, newest_after};
ghost use Rattle.period_report.specs.Text.{event_text, events_text, counted, count_after, run_lines, line_of, layout_line, tail_text};
ghost use Rattle.period_report.specs.Report.{middle_text, report_text};

use crate::cells::{Cells, publication};
use crate::sizes::total;
use crate::{full, lines};
use sh_types::{Bytes, Event, NoMemory};
use shuf_machine::{Machine, machines_stand};
use std::alloc::{AllocError, Global};

/// How much a report tells. The short form has the layouts that came and went; the full form has besides a digest of each
/// copy, and each return word that moved.
#[derive(Clone, Copy, Debug, PartialEq, Eq)]
pub enum Form {
    Short,
    Full,
}

/// The text of one event.
fn event(
    alloc: Global,
    seed: &[u8; 32],
    of: Event,
    count: u64,
    cells: &mut Cells,
) -> Result<String, AllocError>
    requires kept { IsKept seed.now cells.old }
    requires next { IsNext cells.old.newest of }
    ensures text { IfOk result (λ text. string_bytes text ≡ event_text seed.now count of) }
    ensures kept { IfOk result (λ t. IsKept seed.now cells.new) }
    ensures newest { IfOk result (λ t. cells.new.newest ≡ newest_after cells.old.newest of) }
{
    match of {
        Event::Run { .. } | Event::Migrate { .. } => Ok(String::new(alloc)),
        Event::Publish { layout } => publication(alloc, seed, layout, count, cells),
        Event::Erase { layout } => lines::erase(alloc, layout, count),
    }
}

/// The instructions executed up to the end of an event.
fn next_count(count: u64, of: Event) -> u64
    requires { counted count of < 2 ^ 64 }
    ensures { result ≡ counted count of }
{
    match of {
        Event::Run { count: more, .. } => count + more,
        Event::Migrate { .. } | Event::Publish { .. } | Event::Erase { .. } => count,
    }
}

/// The text of all the events.
#[tactic(auto, using(crate::proofs::Counting::counted_small))]
pub fn events(
    alloc: Global,
    seed: &[u8; 32],
    of: &[Event],
    cells: &mut Cells,
) -> Result<String, AllocError>
    requires kept { IsKept seed.now cells.old }
    requires numbered { IsNumbered cells.old.newest of.now }
    requires room { count_after 0 of.now < 2 ^ 64 }
    ensures { IfOk result (λ text. string_bytes text ≡ events_text seed.now 0 of.now) }
{
    let mut text = String::new(alloc);
    let mut count = 0;
    for one in of {
        let line = event(alloc, seed, *one, count, cells)?;
        text.push_str(line.as_str())?;
        count = next_count(count, *one);
    }
    Ok(text)
}

/// The line on the opening layout, and those of the events.
#[tactic(auto, unfolding(layout_maker::specs::Cell::recent_of, layout_maker::specs::Cell::cells_of), using(crate::proofs::Numbering::journal_numbered, crate::proofs::Counting::count_written))]
fn layouts(alloc: Global, machine: &Machine) -> Result<String, AllocError>
    ensures { IfOk result (λ text. string_bytes text ≡ layout_line 1 0 (cell_of machine.now.origin.seed 1) ++ events_text machine.now.origin.seed 0 machine.now.journal) }
{
    let seed = &machine.origin().seed;
    let mut cells = Cells {
        newest: 0,
        recent: Vec::new(alloc),
    };
    let mut text = publication(alloc, seed, 1, 0, &mut cells)?;
    // The machine's count fits 64 bits, and so does each count before.
    let _ = machine.count();
    let middle = events(alloc, seed, machine.journal(), &mut cells)?;
    text.push_str(middle.as_str())?;
    Ok(text)
}

/// The line on the image.
fn image(alloc: Global, machine: &Machine) -> Result<String, AllocError>
    ensures { IfOk result (λ text. string_bytes text ≡ line_of machine.now.image) }
{
    machines_stand(machine);
    let image = machine.image();
    let code = total(machine.newest().sizes.as_slice());
    lines::image(alloc, image.functions.len(), image.rows.len(), code)
}

/// The lines on how the run stands.
fn tail(alloc: Global, machine: &Machine) -> Result<String, AllocError>
    ensures { IfOk result (λ text. string_bytes text ≡ tail_text (state_of machine.now)) }
{
    let mut text = lines::counts(alloc, machine.started(), machine.count())?;
    let last = lines::end(alloc, machine.end())?;
    text.push_str(last.as_str())?;
    Ok(text)
}

/// The lines on the opening layout and on the events, in this form.
fn middle(alloc: Global, machine: &Machine, form: Form) -> Result<String, NoMemory>
    ensures { IfOk result (λ text. string_bytes text ≡ middle_text form machine.now.image machine.now.origin machine.now.journal) }
{
    match form {
        Form::Short => Ok(layouts(alloc, machine)?),
        Form::Full => full::layouts(alloc, machine),
    }
}

/// The report on what the machine has done, in this form: a text of lines that end by LF. `period` is the number of
/// instructions between publications, which the report names. For the full form the events are run again, on a machine
/// that is made for it. Err only where memory is refused.
#[tactic(auto, unfolding(crate::specs::Report::report_text))]
pub fn report(alloc: Global, machine: &Machine, period: u64, form: Form) -> Result<Bytes, NoMemory>
    ensures { IfOk result (λ text. text ≡ report_text form machine.now.image machine.now.origin period machine.now.journal) }
{
    let mut text = lines::run(alloc, &machine.origin().seed, period)?;
    let image = image(alloc, machine)?;
    text.push_str(image.as_str())?;
    let middle = middle(alloc, machine, form)?;
    text.push_str(middle.as_str())?;
    let tail = tail(alloc, machine)?;
    text.push_str(tail.as_str())?;
    Ok(Bytes::from_vec(text.into_bytes()))
}
