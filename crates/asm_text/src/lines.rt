// SPDX-License-Identifier: Apache-2.0
//! The statements of a text, line by line.
ghost use Rattle.std.specs.Prelude.{◌≡◌, ◌==◌, ◌≤◌, ◌<◌, ◌∷◌, [], Some, length, drop, MatchOption, IfSome, IfOk};
ghost use Rattle.asm_text.specs.declared.lines.Quote.TheVariants.{Outside};
ghost use Rattle.asm_text.specs.Reading.{GivesItems};
ghost use Rattle.asm_text.specs.Statements.{parts};
ghost use Rattle.asm_text.specs.Source.{next as next_of, is_end as is_end_of, is_comment as is_comment_of, pieces, line_of, source_of, read as read_of, fault};
ghost use Rattle.asm_text.specs.Seen.{seen};

use crate::faults::{AsmRule, LineFault};
use crate::reading::push_statement;
use crate::statements::Item;
use asm_words::{Unread, cut, has_foreign};
use sh_types::{Items, NoMemory};
use std::alloc::Global;

/// Where a character stands: outside strings, in one, or behind a backslash in one.
#[derive(Clone, Copy, Debug, PartialEq, Eq)]
pub enum Quote {
    Outside,
    Inside,
    Escaped,
}

impl Quote {
    fn next(self, c: u8) -> Quote
        ensures { result ≡ next_of self c }
    {
        match self {
            Quote::Outside => {
                if c == b'"' {
                    Quote::Inside
                } else {
                    Quote::Outside
                }
            }
            Quote::Inside => match c {
                b'"' => Quote::Outside,
                b'\\' => Quote::Escaped,
                _ => Quote::Inside,
            },
            Quote::Escaped => Quote::Inside,
        }
    }

    /// Whether the character ends the statement here.
    fn ends(self, c: u8) -> bool
        ensures { result ≡ is_end_of self c }
    {
        match self {
            Quote::Outside => c == b';',
            _ => false,
        }
    }

    /// Whether the character begins a comment here.
    fn comments(self, c: u8) -> bool
        ensures { result ≡ is_comment_of self c }
    {
        match self {
            Quote::Outside => c == b'#',
            _ => false,
        }
    }
}

/// The text of the first statement of a line, and what stands behind its `;`; None where no other follows.
#[tactic(auto, using(crate::proofs::Pieces::begun, crate::proofs::Pieces::goes_on, crate::proofs::Pieces::comment, crate::proofs::Pieces::ends, crate::proofs::Pieces::ran_out))]
fn first_piece(line: &[u8]) -> (&[u8], Option<&[u8]>)
    ensures parts { MatchOption result.1 (pieces Outside line.now ≡ result.0.now ∷ []) (λ rest. pieces Outside line.now ≡ result.0.now ∷ pieces Outside rest.now) }
    ensures shorter { IfSome result.1 (λ rest. length rest.now < length line.now) }
{
    let mut quote = Quote::Outside;
    for (i, c) in line.iter().enumerate() {
        if quote.comments(*c) {
            return (&line[..i], None);
        }
        if quote.ends(*c) {
            return (&line[..i], Some(&line[i + 1..]));
        }
        quote = quote.next(*c);
    }
    (line, None)
}

/// The items of a line, by its number.
#[tactic(auto, using(crate::proofs::Sourcing::piece_then, crate::proofs::Sourcing::piece_last, crate::proofs::Sourcing::piece_fails), unfolding(crate::specs::Source::line_of))]
fn line_items(alloc: Global, line: u32, text: &[u8]) -> Result<Vec<Item>, Unread>
    ensures { GivesItems (λ v. v.items) line result (line_of text.now) }
{
    let mut items = Vec::new(alloc);
    let mut rest = text;
    'pieces: loop {
        let (piece, behind) = first_piece(rest);
        match behind {
            Some(next) => {
                push_statement(alloc, &mut items, line, piece)?;
                rest = next;
            }
            None => {
                push_statement(alloc, &mut items, line, piece)?;
                return Ok(items);
            }
        }
    }
}

/// The statements of a source up to the first line that has a fault of Text or Form by itself, and that line's fault.
#[derive(Debug, Drop)]
pub struct Source {
    pub items: Items<Item>,
    pub fault: Option<LineFault>,
}

#[tactic(auto, using(crate::proofs::Growing::cut_shorter, crate::proofs::Growing::parts_cut, crate::proofs::Growing::parts_whole, crate::proofs::Sourcing::headed))]
/// The text up to its first line feed, and what stands behind that.
fn first_line(text: &[u8]) -> (&[u8], Option<&[u8]>)
    ensures parts { MatchOption result.1 (parts (λ c. c == 10) text.now ≡ result.0.now ∷ []) (λ rest. parts (λ c. c == 10) text.now ≡ result.0.now ∷ parts (λ c. c == 10) rest.now) }
    ensures shorter { IfSome result.1 (λ rest. length rest.now < length text.now) }
    ensures begins { parts (λ c. c == 10) text.now ≡ result.0.now ∷ drop 1 (parts (λ c. c == 10) text.now) }
{
    match cut(text, b'\n') {
        Some((line, rest)) => (line, Some(rest)),
        None => (text, None),
    }
}

/// Reads the statements of a source.
#[tactic(auto, using(crate::proofs::Sourcing::lines_text, crate::proofs::Sourcing::lines_form, crate::proofs::Sourcing::lines_more, crate::proofs::Sourcing::lines_last), unfolding(crate::specs::Source::source_of))]
pub fn read(alloc: Global, text: &[u8]) -> Result<Source, NoMemory>
    requires { length text.now ≤ 67108864 }
    ensures { IfOk result (λ s. seen s ≡ source_of text.now) }
{
    let mut items = Vec::new(alloc);
    let mut rest = text;
    let mut line = 1;
    'lines: loop {
        let (first, behind) = first_line(rest);
        if has_foreign(first) {
            return Ok(stopped(items, line, AsmRule::Text));
        }
        match line_items(alloc, line, first) {
            Ok(mut more) => items.append(&mut more)?,
            Err(Unread::Form) => return Ok(stopped(items, line, AsmRule::Form)),
            Err(Unread::NoMemory) => return Err(NoMemory),
        }
        match behind {
            Some(next) => {
                rest = next;
                line += 1;
            }
            None => {
                return Ok(Source {
                    items: Items::from_vec(items),
                    fault: None,
                });
            }
        }
    }
}

fn stopped(items: Vec<Item>, line: u32, rule: AsmRule) -> Source
    ensures { seen result ≡ read_of items.items (Some (fault line rule)) }
{
    Source {
        items: Items::from_vec(items),
        fault: Some(LineFault { line, rule }),
    }
}
