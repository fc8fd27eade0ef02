// SPDX-License-Identifier: Apache-2.0
//! The commands, a function each: what it loads, and what is due by that.
ghost use Rattle.std.specs.Prelude.{IfOk, OnErr, Some};
ghost use Rattle.image_rules.specs.Framed.{refusal_of};
ghost use Rattle.cli_words.specs.Ranges.{IsInRange, HasRanges};
ghost use Rattle.cli_words.specs.Texts.{texts};
ghost use Rattle.cli_words.specs.Words.{command_of};
ghost use Rattle.guest_dues.specs.Loaded.{IsImageOf};
ghost use Rattle.cli_rows.specs.Rows.{goes_on, with_input, guest_row, check_row, asm_row, row_of};
ghost use Rattle.guest_dues.specs.Guest.{guest_due};
ghost use Rattle.shuf_cli.specs.Asked.{Came, Stopped};

use crate::FileOr;
use crate::loads::{load_file, load_input};
use cli_rows::{
    Command, FILE_LIMIT, Judged, Opts, WordFault, help, judge, numbers_are_in_range, of_asm,
    of_check, of_demo, read_words, usage,
};
use guest_dues::{Due, Way, of_guest};
use sh_base::Files;
use sh_types::{Bytes, Image, NoMemory};
use std::alloc::Global;
use std::thread::Threads;

/// A run of a guest that is accepted: its input is loaded, where one is named.
fn guest_image<F: Files>(
    alloc: Global,
    image: Image,
    file: Bytes,
    way: Way,
    opts: &Opts,
    files: &mut F,
) -> Result<Due, NoMemory>
    requires image { IsImageOf file image }
    requires range { IsInRange opts.now }
    ensures came { IfOk result (λ due. Came (with_input opts.now.input (guest_due way opts.now file)) (record { held = F.held files.old; faults = F.faults files.old; answered = F.answered files.old })
        (record { held = F.held files.new; faults = F.faults files.new; answered = F.answered files.new }) due) }
    ensures memory { OnErr result (Stopped (with_input opts.now.input (guest_due way opts.now file)) (record { held = F.held files.old; faults = F.faults files.old; answered = F.answered files.old })
        (record { held = F.held files.new; faults = F.faults files.new; answered = F.answered files.new })) }
{
    match load_input(alloc, &opts.input, files)? {
        FileOr::File(input) => of_guest(alloc, way, image, file, input, opts),
        FileOr::Instead(due) => Ok(due),
    }
}

/// A run of a guest's file.
fn guest_loaded<R: Threads + Sync, F: Files>(
    rt: &R,
    alloc: Global,
    file: Bytes,
    way: Way,
    opts: &Opts,
    files: &mut F,
) -> Result<Due, NoMemory>
    requires { IsInRange opts.now }
    ensures came { IfOk result (λ due. Came (goes_on (refusal_of file) (with_input opts.now.input (guest_due way opts.now file))) (record { held = F.held files.old; faults = F.faults files.old; answered = F.answered files.old })
        (record { held = F.held files.new; faults = F.faults files.new; answered = F.answered files.new }) due) }
    ensures memory { OnErr result (Stopped (goes_on (refusal_of file) (with_input opts.now.input (guest_due way opts.now file))) (record { held = F.held files.old; faults = F.faults files.old; answered = F.answered files.old })
        (record { held = F.held files.new; faults = F.faults files.new; answered = F.answered files.new })) }
{
    match judge(rt, alloc, file.as_slice())? {
        Judged::Accepted(image) => guest_image(alloc, image, file, way, opts, files),
        Judged::Refused(due) => Ok(due),
    }
}

/// A run of the guest in the file of this name.
fn guest_file<R: Threads + Sync, F: Files>(
    rt: &R,
    alloc: Global,
    name: &str,
    way: Way,
    opts: &Opts,
    files: &mut F,
) -> Result<Due, NoMemory>
    requires { IsInRange opts.now }
    ensures came { IfOk result (λ due. Came (guest_row way name.now opts.now) (record { held = F.held files.old; faults = F.faults files.old; answered = F.answered files.old })
        (record { held = F.held files.new; faults = F.faults files.new; answered = F.answered files.new }) due) }
    ensures memory { OnErr result (Stopped (guest_row way name.now opts.now) (record { held = F.held files.old; faults = F.faults files.old; answered = F.answered files.old })
        (record { held = F.held files.new; faults = F.faults files.new; answered = F.answered files.new })) }
{
    match load_file(alloc, name, FILE_LIMIT, files)? {
        FileOr::File(file) => guest_loaded(rt, alloc, file, way, opts, files),
        FileOr::Instead(due) => Ok(due),
    }
}

/// A check of a file.
fn check_file<R: Threads + Sync, F: Files>(
    rt: &R,
    alloc: Global,
    name: &str,
    files: &mut F,
) -> Result<Due, NoMemory>
    ensures came { IfOk result (λ due. Came (check_row name.now) (record { held = F.held files.old; faults = F.faults files.old; answered = F.answered files.old })
        (record { held = F.held files.new; faults = F.faults files.new; answered = F.answered files.new }) due) }
    ensures memory { OnErr result (Stopped (check_row name.now) (record { held = F.held files.old; faults = F.faults files.old; answered = F.answered files.old })
        (record { held = F.held files.new; faults = F.faults files.new; answered = F.answered files.new })) }
{
    match load_file(alloc, name, FILE_LIMIT, files)? {
        FileOr::File(file) => of_check(rt, alloc, file.as_slice()),
        FileOr::Instead(due) => Ok(due),
    }
}

/// An assembly of a source.
fn asm_file<F: Files>(
    alloc: Global,
    source: &str,
    target: &str,
    files: &mut F,
) -> Result<Due, NoMemory>
    ensures came { IfOk result (λ due. Came (asm_row source.now target.now) (record { held = F.held files.old; faults = F.faults files.old; answered = F.answered files.old })
        (record { held = F.held files.new; faults = F.faults files.new; answered = F.answered files.new }) due) }
    ensures memory { OnErr result (Stopped (asm_row source.now target.now) (record { held = F.held files.old; faults = F.faults files.old; answered = F.answered files.old })
        (record { held = F.held files.new; faults = F.faults files.new; answered = F.answered files.new })) }
{
    match load_file(alloc, source, FILE_LIMIT, files)? {
        FileOr::File(text) => of_asm(alloc, target, text.as_slice()),
        FileOr::Instead(due) => Ok(due),
    }
}

/// By the command.
fn do_command<R: Threads + Sync, F: Files>(
    rt: &R,
    alloc: Global,
    command: &Command,
    files: &mut F,
    seed: &[u8; 32],
) -> Result<Due, NoMemory>
    requires { HasRanges command.now }
    ensures came { IfOk result (λ due. Came (row_of (Some command.now) seed.now) (record { held = F.held files.old; faults = F.faults files.old; answered = F.answered files.old })
        (record { held = F.held files.new; faults = F.faults files.new; answered = F.answered files.new }) due) }
    ensures memory { OnErr result (Stopped (row_of (Some command.now) seed.now) (record { held = F.held files.old; faults = F.faults files.old; answered = F.answered files.old })
        (record { held = F.held files.new; faults = F.faults files.new; answered = F.answered files.new })) }
{
    match command {
        Command::Run { file, opts } => {
            let way = Way::Moved { seed: *seed };
            guest_file(rt, alloc, file.as_str(), way, opts, files)
        }
        Command::Plain { file, opts } => {
            guest_file(rt, alloc, file.as_str(), Way::Plain, opts, files)
        }
        Command::Check { file } => check_file(rt, alloc, file.as_str(), files),
        Command::Asm { source, target } => {
            asm_file(alloc, source.as_str(), target.as_str(), files)
        }
        Command::Demo { number } => of_demo(rt, alloc, *number, seed),
        Command::Help => help(alloc),
    }
}

/// What is due for these words. It loads the files that they name, and stores and writes nothing.
pub fn make_due<R: Threads + Sync, F: Files>(
    rt: &R,
    alloc: Global,
    words: &[String],
    files: &mut F,
    seed: &[u8; 32],
) -> Result<Due, NoMemory>
    ensures came { IfOk result (λ due. Came (row_of (command_of (texts words.now)) seed.now) (record { held = F.held files.old; faults = F.faults files.old; answered = F.answered files.old })
        (record { held = F.held files.new; faults = F.faults files.new; answered = F.answered files.new }) due) }
    ensures memory { OnErr result (Stopped (row_of (command_of (texts words.now)) seed.now) (record { held = F.held files.old; faults = F.faults files.old; answered = F.answered files.old })
        (record { held = F.held files.new; faults = F.faults files.new; answered = F.answered files.new })) }
{
    numbers_are_in_range();
    match read_words(alloc, words) {
        Ok(command) => do_command(rt, alloc, &command, files, seed),
        Err(WordFault::Usage) => usage(alloc),
        Err(WordFault::NoMemory) => Err(NoMemory),
    }
}
