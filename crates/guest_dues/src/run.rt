// SPDX-License-Identifier: Apache-2.0
//! What is due for a run of a file.
ghost use Rattle.std.specs.Prelude.{◌≡◌, [], IfOk, OnOk};
ghost use Rattle.shuf_machine.specs.Past.{guest_of};
ghost use Rattle.cli_words.specs.Ranges.{IsInRange};
ghost use Rattle.guest_dues.specs.Loaded.{IsImageOf};
ghost use Rattle.guest_dues.specs.Run.{run_status, form_of, report_of, ran_due, run_by, accepted_due};

use crate::Due;
use cli_words::Opts;
use hart_runner::{Plan, run_new};
use period_report::{Form, report};
use sh_types::{Bytes, End, Image, NoMemory};
use shuf_machine::{Machine, Origin};
use std::alloc::Global;

/// The status of a run that ended so, or that may go on.
pub fn status_of(end: Option<End>) -> u8
    ensures { result ≡ run_status end }
{
    match end {
        Some(End::Exit { code }) => { if code > 0 { 1 } else { 0 } }
        Some(End::Trapped { .. }) => 2,
        Some(End::Leak { .. }) => 3,
        None => 4,
    }
}

/// What a run gives to the sinks.
#[derive(Drop)]
struct Told {
    out: Bytes,
    report: Bytes,
}

/// The form of the report that the options ask for.
fn form(opts: &Opts) -> Form
    ensures { result ≡ form_of opts.now }
{
    if opts.full { Form::Full } else { Form::Short }
}

/// All that the guest wrote, and the report.
fn tell(alloc: Global, machine: &Machine, opts: &Opts) -> Result<Told, NoMemory>
    ensures out { IfOk result (λ t. t.out ≡ (guest_of machine.now).output) }
    ensures report { IfOk result (λ t. t.report ≡ report_of opts.now machine.now) }
{
    let out = Bytes::from_slice(alloc, machine.output())?;
    let report = report(alloc, machine, opts.period, form(opts))?;
    Ok(Told { out, report })
}

/// A run that was made, and what it gives to the sinks.
fn ran_with(told: Told, machine: Machine, opts: &Opts) -> Due
    requires out { told.out ≡ (guest_of machine).output }
    requires report { told.report ≡ report_of opts.now machine }
    ensures { result ≡ ran_due opts.now machine }
{
    let end = machine.end();
    Due {
        store: None,
        out: Some(told.out),
        report: Some(told.report),
        status: status_of(end),
        end,
        machine: Some(machine),
    }
}

/// Runs a machine that has done nothing, by the options. Err only where memory is refused.
pub fn make_run(alloc: Global, machine: &mut Machine, opts: &Opts) -> Result<(), NoMemory>
    requires fresh { machine.old.journal ≡ [] }
    requires range { IsInRange opts.now }
    ensures { OnOk result (machine.new ≡ run_by opts.now machine.old) }
{
    let plan = Plan {
        period: opts.period,
        quantum: opts.quantum,
        steps: opts.steps,
        workers: opts.workers,
    };
    run_new(alloc, machine, &plan)
}

/// Runs a machine that has done nothing, and tells of it.
fn run(alloc: Global, machine: &mut Machine, opts: &Opts) -> Result<Told, NoMemory>
    requires fresh { machine.old.journal ≡ [] }
    requires range { IsInRange opts.now }
    ensures ran { OnOk result (machine.new ≡ run_by opts.now machine.old) }
    ensures out { IfOk result (λ t. t.out ≡ (guest_of machine.new).output) }
    ensures report { IfOk result (λ t. t.report ≡ report_of opts.now machine.new) }
{
    make_run(alloc, machine, opts)?;
    tell(alloc, machine, opts)
}

/// What is due for a machine that has done nothing. It is run by reference, so that it is dropped in one place.
fn of_machine(alloc: Global, machine: Machine, opts: &Opts) -> Result<Due, NoMemory>
    requires fresh { machine.journal ≡ [] }
    requires range { IsInRange opts.now }
    ensures { IfOk result (λ due. due ≡ ran_due opts.now (run_by opts.now machine)) }
{
    let mut machine = machine;
    let told = run(alloc, &mut machine, opts)?;
    Ok(ran_with(told, machine, opts))
}

/// What is due for a run of the image of the file: what the guest writes and the report. The seed of its layouts is that
/// of the options, or else `seed`. Err only where memory is refused.
pub fn of_run(
    alloc: Global,
    image: Image,
    file: Bytes,
    input: Bytes,
    opts: &Opts,
    seed: &[u8; 32],
) -> Result<Due, NoMemory>
    requires image { IsImageOf file image }
    requires range { IsInRange opts.now }
    ensures { IfOk result (λ due. due ≡ accepted_due opts.now file input seed.now) }
{
    let seed = opts.seed.unwrap_or(*seed);
    let machine = Machine::new(alloc, image, Origin { file, input, seed })?;
    of_machine(alloc, machine, opts)
}
