// SPDX-License-Identifier: Apache-2.0
//! The return words of a hart that moved.
ghost use Rattle.std.specs.Prelude.{◌≡◌, IfOk, string_bytes};
ghost use Rattle.guest_mem.specs.Held.{words_of};
ghost use Rattle.period_report.specs.Full.{words_text};

use crate::lines;
use guest_mem::GuestMem;
use shuf_machine::ReturnWord;
use std::alloc::{AllocError, Global};

/// A line for each of these return words, with what the memory holds there now.
pub fn words(alloc: Global, of: &[ReturnWord], memory: &GuestMem) -> Result<String, AllocError>
    ensures { IfOk result (λ text. string_bytes text ≡ words_text (words_of memory.now) of.now) }
{
    let mut text = String::new(alloc);
    for one in of {
        let (now, _) = memory.word(one.address);
        let line = lines::word(alloc, *one, now)?;
        text.push_str(line.as_str())?;
    }
    Ok(text)
}
