// SPDX-License-Identifier: Apache-2.0
//! The lines of a report.
ghost use Rattle.std.specs.Prelude.{◌≡◌, IfOk, string_bytes};
ghost use Rattle.period_report.specs.Text.{run_lines, image_line, layout_line, erase_line, count_lines, trap_word as trap_word_of, pair_text, end_line};
ghost use Rattle.period_report.specs.Full.{copy_line, ref_text, move_line, word_line};

use sh_types::{CodeRef, End, Pair, Trap};
use shuf_machine::ReturnWord;
use std::alloc::{AllocError, Global};

/// The version of the format, the seed and the period.
#[tactic(auto, unfolding(crate::specs::Text::run_lines))]
pub fn run(alloc: Global, seed: &[u8; 32], period: u64) -> Result<String, AllocError>
    ensures { IfOk result (λ text. string_bytes text ≡ run_lines seed.now period) }
{
    let seed = hex::encode(alloc, seed.as_slice())?;
    format!(in alloc; "shuffler 1\nseed {seed}\nperiod {period}\n")
}

/// How many functions the image has, how many of them data refers to, and the bytes of code.
#[tactic(auto, unfolding(crate::specs::Text::image_line))]
pub fn image(alloc: Global, functions: usize, rows: usize, code: u64) -> Result<String, AllocError>
    ensures { IfOk result (λ text. string_bytes text ≡ image_line functions rows code) }
{
    format!(in alloc; "image functions {functions} rows {rows} code {code}\n")
}

/// A layout came, after so many instructions.
#[tactic(auto, unfolding(crate::specs::Text::layout_line))]
pub fn layout(alloc: Global, number: u64, count: u64, cell: u32) -> Result<String, AllocError>
    ensures { IfOk result (λ text. string_bytes text ≡ layout_line number count cell) }
{
    format!(in alloc; "layout {number} at {count} cell {cell}\n")
}

/// A layout was erased, after so many instructions.
#[tactic(auto, unfolding(crate::specs::Text::erase_line))]
pub fn erase(alloc: Global, number: u64, count: u64) -> Result<String, AllocError>
    ensures { IfOk result (λ text. string_bytes text ≡ erase_line number count) }
{
    format!(in alloc; "erase {number} at {count}\n")
}

/// The copy of a layout has this digest.
#[tactic(auto, unfolding(crate::specs::Full::copy_line))]
pub fn copy(alloc: Global, number: u64, digest: &[u8; 32]) -> Result<String, AllocError>
    ensures { IfOk result (λ text. string_bytes text ≡ copy_line number digest.now) }
{
    let digest = hex::encode(alloc, digest.as_slice())?;
    format!(in alloc; "copy {number} {digest}\n")
}

/// A hart moved to a layout, after so many instructions, with so many return words.
#[tactic(auto, unfolding(crate::specs::Full::move_line))]
pub fn migrate(
    alloc: Global,
    hart: u32,
    count: u64,
    number: u64,
    words: usize,
) -> Result<String, AllocError>
    ensures { IfOk result (λ text. string_bytes text ≡ move_line hart count number words) }
{
    format!(in alloc; "migrate {hart} at {count} to {number} words {words}\n")
}

/// How many harts were started, and how many instructions were executed.
#[tactic(auto, unfolding(crate::specs::Text::count_lines))]
pub fn counts(alloc: Global, harts: u32, count: u64) -> Result<String, AllocError>
    ensures { IfOk result (λ text. string_bytes text ≡ count_lines harts count) }
{
    format!(in alloc; "harts {harts}\ninstructions {count}\n")
}

fn trap_word(kind: Trap) -> &'static str
    ensures { result.now ≡ trap_word_of kind }
{
    match kind {
        Trap::Illegal => "Illegal",
        Trap::Breakpoint => "Breakpoint",
        Trap::FellOff => "FellOff",
        Trap::Misaligned => "Misaligned",
        Trap::Load => "Load",
        Trap::Store => "Store",
        Trap::BadJump => "BadJump",
    }
}

#[tactic(auto, unfolding(crate::specs::Text::pair_text))]
fn pair(alloc: Global, at: Pair) -> Result<String, AllocError>
    ensures { IfOk result (λ text. string_bytes text ≡ pair_text at) }
{
    let Pair { func, off } = at;
    format!(in alloc; "f{func}+{off}")
}

fn code_ref(alloc: Global, at: CodeRef) -> Result<String, AllocError>
    ensures { IfOk result (λ text. string_bytes text ≡ ref_text at) }
{
    match at {
        CodeRef::Root => String::from_str(alloc, "root"),
        CodeRef::At(at) => pair(alloc, at),
    }
}

/// A return word: its address, what it opens to, what it held and what it holds now.
#[tactic(auto, unfolding(crate::specs::Full::word_line, crate::specs::Full::hex_of), using(crate::proofs::Padding::padded))]
pub fn word(alloc: Global, of: ReturnWord, now: u64) -> Result<String, AllocError>
    ensures { IfOk result (λ text. string_bytes text ≡ word_line of now) }
{
    let ReturnWord { address, word, at } = of;
    let at = code_ref(alloc, at)?;
    format!(in alloc; "word {address:08x} {at} {word:016x} {now:016x}\n")
}

/// How the run ended, if it has.
#[tactic(auto, unfolding(crate::specs::Text::end_line))]
pub fn end(alloc: Global, of: Option<End>) -> Result<String, AllocError>
    ensures { IfOk result (λ text. string_bytes text ≡ end_line of) }
{
    match of {
        None => format!(in alloc; "end limit\n"),
        Some(End::Exit { code }) => format!(in alloc; "end exit {code}\n"),
        Some(
            End::Trapped {
                kind,
                hart,
                pair: at,
                value,
            },
        ) => {
            let word = trap_word(kind);
            let at = pair(alloc, at)?;
            format!(in alloc; "end trap {word} hart {hart} {at} value 0x{value:x}\n")
        }
        Some(End::Leak { hart, pair: at }) => {
            let at = pair(alloc, at)?;
            format!(in alloc; "end leak hart {hart} {at}\n")
        }
    }
}
