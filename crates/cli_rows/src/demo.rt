// SPDX-License-Identifier: Apache-2.0
//! What is due for a generated guest: one line on its run.
ghost use Rattle.std.specs.Prelude.{◌≡◌, ℕ, ◌≤◌, [], IfOk, OnOk, string_bytes};
ghost use Rattle.image_rules.specs.Framed.{framed_image};
ghost use Rattle.cli_words.specs.Limits.{least_guest, most_guest};
ghost use Rattle.cli_words.specs.Options.{default_opts};
ghost use Rattle.cli_rows.specs.Demo.{demo_input, demo_line, demo_ran, line_on};
ghost use Rattle.guest_dues.specs.Loaded.{IsImageOf};
ghost use Rattle.cli_rows.specs.Rows.{demo_due, demo_file_due};
ghost use Rattle.guest_dues.specs.Run.{past_of, run_by};

use crate::asm::written;
use crate::judging::{Judged, judge};
use crate::lines::faulty;
use asm_text::AsmFault;
use cli_words::Opts;
use guest_dues::{Due, make_run, status_of};
use guest_text::guest_of;
use sh_types::{Bytes, Image, NoMemory};
use sha2::{Digest, Sha256};
use shuf_machine::{Machine, Origin};
use std::alloc::{AllocError, Global};
use std::thread::Threads;

/// Bytes of the input of a generated guest.
const INPUT_SIZE: u64 = 16_384;

/// The input of a generated guest.
#[tactic(auto, using(crate::proofs::Inputs::first_none, crate::proofs::Inputs::first_more))]
fn input(alloc: Global) -> Result<Bytes, NoMemory>
    ensures { IfOk result (λ input. input ≡ demo_input) }
{
    let mut bytes = Vec::with_capacity(alloc, INPUT_SIZE as usize)?;
    for place in 0..INPUT_SIZE {
        bytes.push(((7 * place + 13) % 256) as u8)?;
    }
    Ok(Bytes::from_vec(bytes))
}

/// The line on a run.
#[tactic(auto, unfolding(crate::specs::Demo::demo_line))]
fn line(
    alloc: Global,
    number: u32,
    functions: usize,
    count: u64,
    newest: u64,
    digest: &[u8; 32],
) -> Result<String, AllocError>
    ensures { IfOk result (λ line. string_bytes line ≡ demo_line number functions count newest digest.now) }
{
    let digest = hex::encode(alloc, digest.as_slice())?;
    format!(in alloc;
        "demo {number} functions {functions} instructions {count} layouts {newest} output {digest}\n"
    )
}

/// The line on what a machine has done.
#[tactic(auto, using(crate::proofs::Newest::newest_number))]
fn told(alloc: Global, number: u32, machine: &Machine) -> Result<Bytes, NoMemory>
    ensures { IfOk result (λ line. line ≡ line_on number machine.now) }
{
    let digest = Sha256::digest(machine.output());
    let line = line(
        alloc,
        number,
        machine.image().functions.len(),
        machine.count(),
        machine.newest().number,
        &digest,
    )?;
    Ok(Bytes::from_vec(line.into_bytes()))
}

/// A run that was made, and the line on it.
fn ran_with(line: Bytes, machine: Machine) -> Due
    ensures { (number : ℕ) → line ≡ line_on number machine → result ≡ demo_ran number machine }
{
    let end = machine.end();
    Due {
        store: None,
        out: Some(line),
        report: None,
        status: status_of(end),
        end,
        machine: Some(machine),
    }
}

/// Runs a machine that has done nothing, and tells of it.
fn run(alloc: Global, number: u32, machine: &mut Machine) -> Result<Bytes, NoMemory>
    requires { machine.old.journal ≡ [] }
    ensures ran { OnOk result (machine.new ≡ run_by default_opts machine.old) }
    ensures line { IfOk result (λ line. line ≡ line_on number machine.new) }
{
    make_run(alloc, machine, &Opts::none())?;
    told(alloc, number, machine)
}

/// What is due for the machine of a generated guest, which has done nothing. It is run by reference, so that it is
/// dropped in one place.
fn of_machine(alloc: Global, number: u32, machine: Machine) -> Result<Due, NoMemory>
    requires { machine.journal ≡ [] }
    ensures { IfOk result (λ due. due ≡ demo_ran number (run_by default_opts machine)) }
{
    let mut machine = machine;
    let line = run(alloc, number, &mut machine)?;
    Ok(ran_with(line, machine))
}

/// What is due for the image of a generated guest's file.
fn of_image(
    alloc: Global,
    number: u32,
    image: Image,
    file: Bytes,
    seed: &[u8; 32],
) -> Result<Due, NoMemory>
    requires { IsImageOf file image }
    ensures { IfOk result (λ due. due ≡ demo_ran number (past_of default_opts (framed_image file) file demo_input seed.now)) }
{
    let input = input(alloc)?;
    let seed = *seed;
    let machine = Machine::new(alloc, image, Origin { file, input, seed })?;
    of_machine(alloc, number, machine)
}

/// What is due for a generated guest's file.
fn of_file<R: Threads + Sync>(
    rt: &R,
    alloc: Global,
    number: u32,
    file: Bytes,
    seed: &[u8; 32],
) -> Result<Due, NoMemory>
    ensures { IfOk result (λ due. due ≡ demo_file_due number file seed.now) }
{
    match judge(rt, alloc, file.as_slice())? {
        Judged::Accepted(image) => of_image(alloc, number, image, file, seed),
        Judged::Refused(due) => Ok(due),
    }
}

/// What is due for the generated guest of a number: it is assembled and run on an input of its own by the options where
/// the words give none, with this seed for its layouts, and a line on the run is due to out. Err only where memory is
/// refused.
pub fn of_demo<R: Threads + Sync>(
    rt: &R,
    alloc: Global,
    number: u32,
    seed: &[u8; 32],
) -> Result<Due, NoMemory>
    requires some { least_guest ≤ number }
    requires few { number ≤ most_guest }
    ensures { IfOk result (λ due. due ≡ demo_due number seed.now) }
{
    let source = guest_of(alloc, number)?;
    match written(alloc, source.as_slice()) {
        Ok(file) => of_file(rt, alloc, number, file, seed),
        Err(AsmFault::NoMemory) => Err(NoMemory),
        Err(AsmFault::Line { line, rule }) => faulty(alloc, line, rule),
    }
}
