// SPDX-License-Identifier: Apache-2.0
//! Words that can name a file.
ghost use Rattle.std.specs.Prelude.{◌≡◌, IfOk, IsErrOf};
ghost use Rattle.cli_words.specs.Texts.{is_file_word};

use crate::WordFault;
use sh_types::Name;
use std::alloc::Global;

/// Whether a word can name a file: it is not empty and does not begin with two dashes.
pub fn names_file(word: &str) -> bool
    ensures { result ≡ is_file_word word.now }
{
    !word.is_empty() && !word.as_bytes().starts_with(b"--")
}

/// A file word as a name. Err only where memory is refused.
pub fn named(alloc: Global, file: &str) -> Result<Name, WordFault>
    ensures name { IfOk result (λ name. name ≡ file.now) }
    ensures memory { IsErrOf result WordFault.Usage → ⊥ }
{
    match Name::from_str(alloc, file) {
        Ok(name) => Ok(name),
        Err(_) => Err(WordFault::NoMemory),
    }
}
