// SPDX-License-Identifier: Apache-2.0
//! Strings of the source language.
ghost use Rattle.std.specs.Prelude.{◌≡◌, false};
ghost use Rattle.asm_words.specs.Results.{Gives};
ghost use Rattle.asm_words.specs.Strings.{escape as escape_of, quoted, string_of};

use crate::characters::trimmed;
use crate::faults::Unread;
use sh_types::Bytes;
use std::alloc::Global;

/// What a character behind a backslash stands for.
fn escape(c: u8) -> Option<u8>
    ensures { result ≡ escape_of c }
{
    match c {
        b'n' => Some(b'\n'),
        b'\\' | b'"' => Some(c),
        _ => None,
    }
}

#[tactic(auto, using(crate::proofs::Quoting::escape_more, crate::proofs::Quoting::escape_none, crate::proofs::Quoting::quote_last, crate::proofs::Quoting::quote_early, crate::proofs::Quoting::escape_begins, crate::proofs::Quoting::plain_more, crate::proofs::Quoting::unclosed))]
fn unquoted(alloc: Global, text: &[u8]) -> Result<Vec<u8>, Unread>
    ensures { Gives (λ v. v.items) result (quoted false text.now) }
{
    let mut bytes = Vec::new(alloc);
    let mut escaped = false;
    for (i, c) in text.iter().enumerate() {
        if escaped {
            bytes.push(escape(*c).ok_or(Unread::Form)?)?;
            escaped = false;
        } else if *c == b'"' {
            return if i + 1 == text.len() {
                Ok(bytes)
            } else {
                Err(Unread::Form)
            };
        } else if *c == b'\\' {
            escaped = true;
        } else {
            bytes.push(*c)?;
        }
    }
    Err(Unread::Form)
}

/// The bytes of the string that the operand is.
#[tactic(auto, unfolding(crate::specs::Strings::string_of))]
pub fn string(alloc: Global, text: &[u8]) -> Result<Bytes, Unread>
    ensures { Gives (λ b. b) result (string_of text.now) }
{
    let text = trimmed(text);
    if text.is_empty() || text[0] != b'"' {
        return Err(Unread::Form);
    }
    Ok(Bytes::from_vec(unquoted(alloc, &text[1..])?))
}
