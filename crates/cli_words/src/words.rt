// SPDX-License-Identifier: Apache-2.0
//! The words of a command line.
ghost use Rattle.std.specs.Prelude.{◌≡◌, IfOk, IsErrOf, IsSome, None, Some, option_map};
ghost use Rattle.cli_words.specs.Told.{told};
ghost use Rattle.cli_words.specs.Texts.{texts};
ghost use Rattle.cli_words.specs.Words.{file_with as file_with_of, run_of, plain_of, check_of, asm_of, demo_of, help_of, verb_of, command_of};

use crate::WordFault;
use crate::limits::{LEAST_GUEST, MOST_GUEST};
use crate::numbers::number_in;
use crate::options::{Allowed, Options, Opts};
use crate::reading::read_options;
use crate::texts::{named, names_file};
use sh_types::Name;
use std::alloc::Global;

/// What the words ask for.
#[derive(Debug, Drop)]
pub enum Command {
    Run { file: Name, opts: Opts },
    Plain { file: Name, opts: Opts },
    Check { file: Name },
    Asm { source: Name, target: Name },
    Demo { number: u32 },
    Help,
}

/// FILE and the options behind it, of those that may come. None where the words are none.
fn file_with(allowed: Allowed, words: &[String]) -> Option<(&str, Options<'_>)>
    ensures { option_map (λ x. (x.0.now, told x.1)) result ≡ file_with_of allowed (texts words.now) }
{
    let [file, rest @ ..] = words else {
        return None;
    };
    if !names_file(file.as_str()) {
        return None;
    }
    let options = read_options(allowed, rest)?;
    Some((file.as_str(), options))
}

/// `run FILE` and its options.
fn read_run(alloc: Global, words: &[String]) -> Result<Command, WordFault>
    ensures usage { IsErrOf result WordFault.Usage → run_of (texts words.now) ≡ None }
    ensures command { IfOk result (λ command. run_of (texts words.now) ≡ Some command) }
    ensures memory { IsErrOf result WordFault.NoMemory → IsSome (run_of (texts words.now)) }
{
    let Some((file, options)) = file_with(Allowed::of_run(), words) else {
        return Err(WordFault::Usage);
    };
    if !options.serial {
        return Err(WordFault::Usage);
    }
    Ok(Command::Run {
        file: named(alloc, file)?,
        opts: options.owned(alloc)?,
    })
}

/// `plain FILE` and its options.
fn read_plain(alloc: Global, words: &[String]) -> Result<Command, WordFault>
    ensures usage { IsErrOf result WordFault.Usage → plain_of (texts words.now) ≡ None }
    ensures command { IfOk result (λ command. plain_of (texts words.now) ≡ Some command) }
    ensures memory { IsErrOf result WordFault.NoMemory → IsSome (plain_of (texts words.now)) }
{
    let Some((file, options)) = file_with(Allowed::of_plain(), words) else {
        return Err(WordFault::Usage);
    };
    Ok(Command::Plain {
        file: named(alloc, file)?,
        opts: options.owned(alloc)?,
    })
}

/// `check FILE`.
fn read_check(alloc: Global, words: &[String]) -> Result<Command, WordFault>
    ensures usage { IsErrOf result WordFault.Usage → check_of (texts words.now) ≡ None }
    ensures command { IfOk result (λ command. check_of (texts words.now) ≡ Some command) }
    ensures memory { IsErrOf result WordFault.NoMemory → IsSome (check_of (texts words.now)) }
{
    let [file] = words else {
        return Err(WordFault::Usage);
    };
    if !names_file(file.as_str()) {
        return Err(WordFault::Usage);
    }
    Ok(Command::Check {
        file: named(alloc, file.as_str())?,
    })
}

/// `asm SRC OUT`.
fn read_asm(alloc: Global, words: &[String]) -> Result<Command, WordFault>
    ensures usage { IsErrOf result WordFault.Usage → asm_of (texts words.now) ≡ None }
    ensures command { IfOk result (λ command. asm_of (texts words.now) ≡ Some command) }
    ensures memory { IsErrOf result WordFault.NoMemory → IsSome (asm_of (texts words.now)) }
{
    let [source, target] = words else {
        return Err(WordFault::Usage);
    };
    if !names_file(source.as_str()) || !names_file(target.as_str()) {
        return Err(WordFault::Usage);
    }
    Ok(Command::Asm {
        source: named(alloc, source.as_str())?,
        target: named(alloc, target.as_str())?,
    })
}

/// `demo N`.
fn read_demo(words: &[String]) -> Result<Command, WordFault>
    ensures usage { IsErrOf result WordFault.Usage → demo_of (texts words.now) ≡ None }
    ensures command { IfOk result (λ command. demo_of (texts words.now) ≡ Some command) }
    ensures memory { IsErrOf result WordFault.NoMemory → ⊥ }
{
    let [word] = words else {
        return Err(WordFault::Usage);
    };
    match number_in(LEAST_GUEST, MOST_GUEST, word.as_str()) {
        Some(number) => Ok(Command::Demo {
            number: number as u32,
        }),
        None => Err(WordFault::Usage),
    }
}

/// `help`, alone.
fn read_help(words: &[String]) -> Result<Command, WordFault>
    ensures usage { IsErrOf result WordFault.Usage → help_of (texts words.now) ≡ None }
    ensures command { IfOk result (λ command. help_of (texts words.now) ≡ Some command) }
    ensures memory { IsErrOf result WordFault.NoMemory → ⊥ }
{
    match words {
        [] => Ok(Command::Help),
        _ => Err(WordFault::Usage),
    }
}

/// By the verb.
fn read_verb(alloc: Global, verb: &str, words: &[String]) -> Result<Command, WordFault>
    ensures usage { IsErrOf result WordFault.Usage → verb_of verb.now (texts words.now) ≡ None }
    ensures command { IfOk result (λ command. verb_of verb.now (texts words.now) ≡ Some command) }
    ensures memory { IsErrOf result WordFault.NoMemory → IsSome (verb_of verb.now (texts words.now)) }
{
    match verb {
        "run" => read_run(alloc, words),
        "plain" => read_plain(alloc, words),
        "check" => read_check(alloc, words),
        "asm" => read_asm(alloc, words),
        "demo" => read_demo(words),
        "help" => read_help(words),
        _ => Err(WordFault::Usage),
    }
}

/// Reads the words of a command line: a verb, its files and its options. Words that are no command are `Usage`.
pub fn read_words(alloc: Global, words: &[String]) -> Result<Command, WordFault>
    ensures usage { IsErrOf result WordFault.Usage → command_of (texts words.now) ≡ None }
    ensures command { IfOk result (λ command. command_of (texts words.now) ≡ Some command) }
    ensures memory { IsErrOf result WordFault.NoMemory → IsSome (command_of (texts words.now)) }
{
    match words {
        [verb, rest @ ..] => read_verb(alloc, verb.as_str(), rest),
        [] => Err(WordFault::Usage),
    }
}
