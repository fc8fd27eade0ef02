// SPDX-License-Identifier: Apache-2.0
//! The options of the command line, one by one.
ghost use Rattle.std.specs.Prelude.{◌≡◌, IfOk, IsErrOf, option_map};
ghost use Rattle.cli_words.specs.Options.{default_opts, run_allowed, plain_allowed, valued_named as valued_named_of, behind as behind_of, with_value as with_value_of, form_of};
ghost use Rattle.cli_words.specs.Ranges.{IsInRange};
ghost use Rattle.cli_words.specs.Told.{told};

use crate::WordFault;
use crate::limits::{
    DEFAULT_PERIOD, DEFAULT_QUANTUM, DEFAULT_STEPS, DEFAULT_WORKERS, LEAST_PERIOD, LEAST_QUANTUM,
    LEAST_STEPS, MOST_PERIOD, MOST_QUANTUM, MOST_STEPS,
};
use crate::numbers::{number_in, seed};
use crate::texts::{named, names_file};
use sh_types::Name;
use std::alloc::Global;

/// The options of a run. `seed` stands in place of the seed that is handed in; a publication is due every
/// `period` instructions; a turn has at most `quantum` and the run at most `steps` instructions; `workers`
/// threads run it, or none where it is `serial`; `input` names a file; the report is `full` or short.
#[derive(Debug, Drop)]
pub struct Opts {
    pub seed: Option<[u8; 32]>,
    pub period: u64,
    pub quantum: u32,
    pub steps: u64,
    pub workers: u32,
    pub serial: bool,
    pub input: Option<Name>,
    pub full: bool,
}

impl Opts {
    /// The options where the words give none.
    pub fn none() -> Opts
        ensures is { result ≡ default_opts }
        ensures ranges { IsInRange result }
    {
        Opts {
            seed: None,
            period: DEFAULT_PERIOD,
            quantum: DEFAULT_QUANTUM,
            steps: DEFAULT_STEPS,
            workers: DEFAULT_WORKERS,
            serial: false,
            input: None,
            full: false,
        }
    }
}

/// The options that have a value.
#[derive(Clone, Copy, Debug, PartialEq, Eq)]
pub enum Valued {
    Seed,
    Period,
    Quantum,
    Steps,
    Input,
    Report,
}

/// The option that has a value and this name.
pub fn valued_named(name: &str) -> Option<Valued>
    ensures { result ≡ valued_named_of name.now }
{
    let option = match name {
        "--seed" => Valued::Seed,
        "--period" => Valued::Period,
        "--quantum" => Valued::Quantum,
        "--steps" => Valued::Steps,
        "--input" => Valued::Input,
        "--report" => Valued::Report,
        _ => return None,
    };
    Some(option)
}

/// Which options may still come.
#[derive(Clone, Copy, Debug, PartialEq, Eq)]
pub struct Allowed {
    pub serial: bool,
    pub seed: bool,
    pub period: bool,
    pub quantum: bool,
    pub steps: bool,
    pub input: bool,
    pub report: bool,
}

impl Allowed {
    /// Those of a run.
    pub fn of_run() -> Allowed
        ensures { result ≡ run_allowed }
    {
        Allowed {
            serial: true,
            seed: true,
            period: true,
            quantum: true,
            steps: true,
            input: true,
            report: true,
        }
    }

    /// Those of a run that is never moved.
    pub fn of_plain() -> Allowed
        ensures { result ≡ plain_allowed }
    {
        Allowed {
            serial: false,
            seed: false,
            period: false,
            quantum: true,
            steps: true,
            input: true,
            report: false,
        }
    }

    /// What may come behind this option; None where it may not come.
    pub fn behind(self, option: Valued) -> Option<Allowed>
        ensures { result ≡ behind_of self option }
    {
        match option {
            Valued::Seed => self.seed.then_some(Allowed {
                seed: false,
                ..self
            }),
            Valued::Period => self.period.then_some(Allowed {
                period: false,
                ..self
            }),
            Valued::Quantum => self.quantum.then_some(Allowed {
                quantum: false,
                ..self
            }),
            Valued::Steps => self.steps.then_some(Allowed {
                steps: false,
                ..self
            }),
            Valued::Input => self.input.then_some(Allowed {
                input: false,
                ..self
            }),
            Valued::Report => self.report.then_some(Allowed {
                report: false,
                ..self
            }),
        }
    }
}

/// Whether a report in the form of this name is the full one; None where no form has the name.
fn is_full(word: &str) -> Option<bool>
    ensures { result ≡ form_of word.now }
{
    match word {
        "short" => Some(false),
        "full" => Some(true),
        _ => None,
    }
}

/// The options that came. The name of the input is still the word.
#[derive(Clone, Copy, Debug)]
pub struct Options<'a> {
    pub seed: Option<[u8; 32]>,
    pub period: u64,
    pub quantum: u32,
    pub steps: u64,
    pub serial: bool,
    pub input: Option<&'a str>,
    pub full: bool,
}

impl<'a> Options<'a> {
    /// The options where the words give none.
    pub fn none() -> Options<'a>
        ensures { told result ≡ default_opts }
    {
        Options {
            seed: None,
            period: DEFAULT_PERIOD,
            quantum: DEFAULT_QUANTUM,
            steps: DEFAULT_STEPS,
            serial: false,
            input: None,
            full: false,
        }
    }

    /// The same with the word as the value of this option; None where it is no such value.
    pub fn with_value(self, option: Valued, word: &'a str) -> Option<Options<'a>>
        ensures { option_map told result ≡ with_value_of (told self.entry) option word.now }
    {
        match option {
            Valued::Seed => {
                let seed = Some(seed(word)?);
                Some(Options { seed, ..self })
            }
            Valued::Period => {
                let period = number_in(LEAST_PERIOD, MOST_PERIOD, word)?;
                Some(Options { period, ..self })
            }
            Valued::Quantum => {
                let quantum = number_in(LEAST_QUANTUM, MOST_QUANTUM, word)?;
                Some(Options {
                    quantum: quantum as u32,
                    ..self
                })
            }
            Valued::Steps => {
                let steps = number_in(LEAST_STEPS, MOST_STEPS, word)?;
                Some(Options { steps, ..self })
            }
            Valued::Input => {
                if names_file(word) {
                    Some(Options {
                        input: Some(word),
                        ..self
                    })
                } else {
                    None
                }
            }
            Valued::Report => {
                let full = is_full(word)?;
                Some(Options { full, ..self })
            }
        }
    }

    /// The same with a name of its own for the input. Err only where memory is refused.
    pub fn owned(self, alloc: Global) -> Result<Opts, WordFault>
        ensures opts { IfOk result (λ opts. opts ≡ told self.entry) }
        ensures memory { IsErrOf result WordFault.Usage → ⊥ }
    {
        let input = match self.input {
            None => None,
            Some(name) => Some(named(alloc, name)?),
        };
        Ok(Opts {
            seed: self.seed,
            period: self.period,
            quantum: self.quantum,
            steps: self.steps,
            workers: DEFAULT_WORKERS,
            serial: self.serial,
            input,
            full: self.full,
        })
    }
}
