// SPDX-License-Identifier: Apache-2.0
//! The options of a list of words.
ghost use Rattle.std.specs.Prelude.{◌≡◌, option_map};
ghost use Rattle.cli_words.specs.Options.{opening, serial_read, name_read, word_read, whole as whole_of, options_of};
ghost use Rattle.cli_words.specs.Texts.{texts};
ghost use Rattle.cli_words.specs.Told.{told, told_reading};

use crate::options::{Allowed, Options, Valued, valued_named};

/// What was read: the options that may still come, the one whose value is the next word, and those that came.
#[derive(Clone, Copy, Debug)]
pub struct Reader<'a> {
    pub allowed: Allowed,
    pub awaited: Option<Valued>,
    pub options: Options<'a>,
}

impl<'a> Reader<'a> {
    /// Nothing was read.
    fn new(allowed: Allowed) -> Reader<'a>
        ensures { told_reading result ≡ opening allowed }
    {
        Reader {
            allowed,
            awaited: None,
            options: Options::none(),
        }
    }

    /// `--serial`, which has no value.
    fn read_serial(self) -> Option<Reader<'a>>
        ensures { option_map told_reading result ≡ serial_read (told_reading self.entry) }
    {
        if !self.allowed.serial {
            return None;
        }
        Some(Reader {
            allowed: Allowed {
                serial: false,
                ..self.allowed
            },
            options: Options {
                serial: true,
                ..self.options
            },
            ..self
        })
    }

    /// The name of an option that may still come.
    fn read_name(self, word: &str) -> Option<Reader<'a>>
        ensures { option_map told_reading result ≡ name_read (told_reading self.entry) word.now }
    {
        if word == "--serial" {
            return self.read_serial();
        }
        let option = valued_named(word)?;
        let allowed = self.allowed.behind(option)?;
        Some(Reader {
            allowed,
            awaited: Some(option),
            ..self
        })
    }

    /// The next word: the value that is awaited, or else the name of an option.
    fn read_word(self, word: &'a str) -> Option<Reader<'a>>
        ensures { option_map told_reading result ≡ word_read (told_reading self.entry) self.entry.awaited word.now }
    {
        match self.awaited {
            None => self.read_name(word),
            Some(option) => {
                let options = self.options.with_value(option, word)?;
                Some(Reader {
                    awaited: None,
                    options,
                    ..self
                })
            }
        }
    }

    /// The options that were read; None where the value of one is still awaited.
    fn whole(self) -> Option<Options<'a>>
        ensures { option_map told result ≡ whole_of self.entry.awaited (told self.entry.options) }
    {
        match self.awaited {
            None => Some(self.options),
            Some(_) => None,
        }
    }
}

/// The options of these words behind those that were read. None where the words are no such options.
#[tactic(auto, unfolding(crate::specs::Options::options_of))]
fn read_on<'a>(reader: Reader<'a>, words: &'a [String]) -> Option<Options<'a>>
    ensures { option_map told result ≡ options_of (told_reading reader.entry) (texts words.now) }
{
    match words {
        [] => reader.whole(),
        [word, rest @ ..] => {
            let reader = reader.read_word(word.as_str())?;
            read_on(reader, rest)
        }
    }
}

/// The options of these words, of those that may come. None where the words are no such options.
pub fn read_options<'a>(allowed: Allowed, words: &'a [String]) -> Option<Options<'a>>
    ensures { option_map told result ≡ options_of (opening allowed) (texts words.now) }
{
    read_on(Reader::new(allowed), words)
}
