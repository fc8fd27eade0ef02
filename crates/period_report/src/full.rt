// SPDX-License-Identifier: Apache-2.0
//! The lines of the full form on the layouts, by a machine that runs the events again.
ghost use Rattle.std.specs.Prelude.{◌≡◌, ◌<◌, IfOk, string_bytes};
ghost use Rattle.shuf_machine.specs.Past.{state_of, opening};
ghost use Rattle.period_report.specs.Full.{full_events};
ghost use Rattle.period_report.specs.Replay.{setting_in, CanRun};
ghost use Rattle.period_report.specs.Report.{middle_text};

use crate::replay::{event, newest};
use crate::writer::Form;
use sh_types::{Event, NoMemory, Steps};
use shuf_machine::{Machine, machines_stand};
use std::alloc::Global;
use std::marker::Brand;
use std::sync::ledger::{Blank, Ledger};

/// What events write, which the machine runs.
fn events<L: Ledger>(
    alloc: Global,
    machine: &mut Machine,
    of: &[Event],
    steps: &mut Steps<L>,
) -> Result<String, NoMemory>
    requires { CanRun machine.old of.now }
    ensures { IfOk result (λ text. string_bytes text ≡ full_events (setting_in machine.old) machine.old.origin.seed (state_of machine.old) of.now) }
{
    let mut text = String::new(alloc);
    for one in of {
        let lines = event(alloc, machine, *one, steps)?;
        text.push_str(lines.as_str())?;
    }
    Ok(text)
}

/// What events write, which a machine that has done nothing runs, with a counter of the steps that migrations take.
fn replay<L: Ledger>(
    alloc: Global,
    machine: &mut Machine,
    of: &[Event],
    blank: Blank,
) -> Result<String, NoMemory>
    requires can { CanRun machine.old of.now }
    requires name { blank.name ≡ L.name }
    requires parts { blank.parts ≡ L.parts }
    requires some { 0 < blank.parts }
    ensures { IfOk result (λ text. string_bytes text ≡ full_events (setting_in machine.old) machine.old.origin.seed (state_of machine.old) of.now) }
{
    let mut steps = Steps::<L>::new(blank);
    events(alloc, machine, of, &mut steps)
}

/// A machine of the same image and origin that has done nothing. Err only where memory is refused.
fn anew(alloc: Global, machine: &Machine) -> Result<Machine, NoMemory>
    ensures { IfOk result (λ m. m ≡ opening machine.now.image machine.now.origin) }
{
    let image = machine.image().duplicate(alloc)?;
    let origin = machine.origin().duplicate(alloc)?;
    Machine::new(alloc, image, origin)
}

/// The lines on the opening layout and on what the machine has done, by another that has done nothing.
fn told(alloc: Global, machine: &Machine, again: &mut Machine) -> Result<String, NoMemory>
    requires { again.old ≡ opening machine.now.image machine.now.origin }
    ensures { IfOk result (λ text. string_bytes text ≡ middle_text Form.Full machine.now.image machine.now.origin machine.now.journal) }
{
    machines_stand(machine);
    // The machine's count fits 64 bits, and so does each count before.
    let _ = machine.count();
    let mut text = newest(alloc, again, 0)?;
    let middle = replay::<Brand>(alloc, again, machine.journal(), Blank::new(1))?;
    text.push_str(middle.as_str())?;
    Ok(text)
}

/// The lines on the opening layout and on what the machine has done, in the full form.
pub fn layouts(alloc: Global, machine: &Machine) -> Result<String, NoMemory>
    ensures { IfOk result (λ text. string_bytes text ≡ middle_text Form.Full machine.now.image machine.now.origin machine.now.journal) }
{
    let mut again = anew(alloc, machine)?;
    told(alloc, machine, &mut again)
}
