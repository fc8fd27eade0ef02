// SPDX-License-Identifier: Apache-2.0
//! What is due where nothing else is: one line to the report, or a text to out.
ghost use Rattle.std.specs.Prelude.{◌≡◌, ◌≢◌, IfOk, string_bytes, decimal};
ghost use Rattle.image_text.specs.Lines.{fault_line, source_line as source_line_of};
ghost use Rattle.cli_rows.specs.Dues.{line_due, text_due, help_due, usage_due, unreadable_due, too_long_due};
ghost use Rattle.cli_rows.specs.Lines.{unwritable_line, longer_front};

use asm_text::AsmRule;
use elf_rules::LoadFault;
use guest_dues::Due;
use image_text::{refusal_line, source_line};
use sh_types::{Bytes, NoMemory};
use std::alloc::{AllocError, Global};

/// A refusal: its line alone is due.
fn refusal_in_bytes(status: u8, line: Bytes) -> Due
    ensures { result ≡ line_due status line }
{
    Due {
        store: None,
        out: None,
        report: Some(line),
        status,
        end: None,
        machine: None,
    }
}

/// A refusal whose line is text.
fn refusal(status: u8, line: String) -> Due
    ensures { result ≡ line_due status (string_bytes line) }
{
    refusal_in_bytes(status, Bytes::from_vec(line.into_bytes()))
}

/// The text alone is due, to out.
pub fn text(text: Bytes) -> Due
    ensures { result ≡ text_due text }
{
    Due {
        store: None,
        out: Some(text),
        report: None,
        status: 0,
        end: None,
        machine: None,
    }
}

const HELP: &str =
    "shuffler run FILE\nshuffler plain FILE\nshuffler check FILE\nshuffler asm SRC OUT\nshuffler demo N\nshuffler help\n";

/// The lines on the commands are due, to out. Err only where memory is refused.
#[tactic(auto, unfolding(crate::specs::Lines::help_text))]
pub fn help(alloc: Global) -> Result<Due, NoMemory>
    ensures { IfOk result (λ due. due ≡ help_due) }
{
    Ok(text(Bytes::from_vec(String::from_str(alloc, HELP)?.into_bytes())))
}

/// The line on words that are no command is due. Err only where memory is refused.
#[tactic(auto, unfolding(crate::specs::Lines::usage_line))]
pub fn usage(alloc: Global) -> Result<Due, NoMemory>
    ensures { IfOk result (λ due. due ≡ usage_due) }
{
    Ok(refusal(10, String::from_str(alloc, "shuffler: usage\n")?))
}

/// The line on a file that cannot be read is due. Err only where memory is refused.
#[tactic(auto, unfolding(crate::specs::Lines::unreadable_line))]
pub fn unreadable(alloc: Global, name: &str) -> Result<Due, NoMemory>
    ensures { IfOk result (λ due. due ≡ unreadable_due name.now) }
{
    let line = format!(in alloc; "shuffler: file {name} cannot be read\n")?;
    Ok(refusal(11, line))
}

/// The line on a file that cannot be written. Err only where memory is refused.
#[tactic(auto, unfolding(crate::specs::Lines::unwritable_line))]
pub fn unwritable(alloc: Global, name: &str) -> Result<Bytes, NoMemory>
    ensures { IfOk result (λ line. line ≡ unwritable_line name.now) }
{
    let line = format!(in alloc; "shuffler: file {name} cannot be written\n")?;
    Ok(Bytes::from_vec(line.into_bytes()))
}

fn digits(alloc: Global, number: u64) -> Result<String, AllocError>
    ensures { IfOk result (λ text. string_bytes text ≡ decimal number) }
{
    format!(in alloc; "{number}")
}

#[tactic(auto, unfolding(crate::specs::Lines::longer_front))]
fn longer(alloc: Global, name: &str) -> Result<String, AllocError>
    ensures { IfOk result (λ line. string_bytes line ≡ longer_front name.now) }
{
    format!(in alloc; "shuffler: file {name} is longer than ")
}

/// The line on a file of more than `limit` bytes is due. Err only where memory is refused.
pub fn too_long(alloc: Global, name: &str, limit: u64) -> Result<Due, NoMemory>
    ensures { IfOk result (λ due. due ≡ too_long_due name.now limit) }
{
    let mut line = longer(alloc, name)?;
    let digits = digits(alloc, limit)?;
    line.push_str(digits.as_str())?;
    line.push_str(" bytes\n")?;
    Ok(refusal(11, line))
}

/// The line on a file that is refused is due. Want of memory is no refusal.
pub fn refused(alloc: Global, fault: LoadFault) -> Result<Due, NoMemory>
    requires { fault ≢ LoadFault.NoMemory }
    ensures { IfOk result (λ due. due ≡ line_due 12 (fault_line fault)) }
{
    let line = refusal_line(alloc, fault)?;
    Ok(refusal_in_bytes(12, line))
}

/// The line on a source that is refused is due.
pub fn faulty(alloc: Global, line: u32, rule: AsmRule) -> Result<Due, NoMemory>
    ensures { IfOk result (λ due. due ≡ line_due 12 (source_line_of line rule)) }
{
    let line = source_line(alloc, line, rule)?;
    Ok(refusal(12, line))
}
