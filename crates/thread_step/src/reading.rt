// SPDX-License-Identifier: Apache-2.0
//! What an image has at a pair.
ghost use Rattle.std.specs.Prelude.{◌≡◌, ◌+◌, ◌/◌, ◌<◌, ◌^◌, IfNone, IfSome, [], length, slice_index, slice_index_or};
ghost use Rattle.rv_operands.specs.Registers.{NamesRegisters};
ghost use Rattle.rv_table.specs.Decoding.{decoded};
ghost use Rattle.sh_machines.specs.Copy.{is_literal as is_literal_of};
ghost use Rattle.sh_types.specs.Image.{row_at, site_at, sizes_of, word_at};
ghost use Rattle.sh_types.specs.Sized.{IsSized};
ghost use Rattle.thread_step.specs.Numbered.{IsWorded};

use rv_decode::decode;
use rv_table::Instr;
use sh_types::{FrameState, Image, Items, Pair, Site};

/// The size of a function; 0 of one that is not there.
pub fn size(image: &Image, func: u32) -> u32
    ensures { result ≡ slice_index (sizes_of image.now) func }
{
    match image.functions.as_slice().get(func as usize) {
        Some(function) => function.size,
        None => 0,
    }
}

/// The word at a pair, where there is one.
fn word(image: &Image, at: Pair) -> Option<u32>
    ensures some { IfSome result (λ word. word ≡ word_at image.now at) }
    ensures none { IfNone result (word_at image.now at ≡ 0) }
    ensures inside { IfSome result (λ _. at.off / 4 < length (slice_index_or image.now.words at.func [])) }
{
    match image.words.as_slice().get(at.func as usize) {
        Some(words) => match words.as_slice().get((at.off / 4) as usize) {
            Some(word) => Some(*word),
            None => None,
        },
        None => None,
    }
}

/// The instruction of the word at a pair; None where no word is, or one that is no instruction's.
#[tactic(auto, using(crate::proofs::Lookups::word_inside, crate::proofs::Lookups::next_fits, crate::proofs::Words::names_registers, crate::proofs::Words::zero_decoded))]
pub fn instr_at(image: &Image, at: Pair) -> Option<Instr>
    requires sized { IsSized (sizes_of image.now) }
    requires worded { IsWorded image.now }
    ensures is { result ≡ decoded (word_at image.now at) }
    ensures registers { IfSome result (λ instr. NamesRegisters instr) }
    ensures inside { IfSome result (λ _. at.off < slice_index (sizes_of image.now) at.func) }
    ensures next { IfSome result (λ _. at.off + 4 < 2 ^ 32) }
{
    match word(image, at) {
        Some(word) => decode(word),
        None => None,
    }
}

/// The class of the word at a pair.
pub fn site(image: &Image, at: Pair) -> Site
    ensures { result ≡ site_at image.now at }
{
    match image.sites.as_slice().get(at.func as usize) {
        Some(sites) => match sites.as_slice().get((at.off / 4) as usize) {
            Some(site) => *site,
            None => Site::Plain,
        },
        None => Site::Plain,
    }
}

/// The frame's state at a pair; None where no path comes.
#[tactic(auto, unfolding(sh_types::specs::Image::row_in))]
pub fn row(image: &Image, at: Pair) -> Option<FrameState>
    ensures { result ≡ row_at image.now at }
{
    if at.off % 4 != 0 {
        return None;
    }
    match image.frames.as_slice().get(at.func as usize) {
        Some(table) => match table.rows.as_slice().get((at.off / 4) as usize) {
            Some(row) => *row,
            None => None,
        },
        None => None,
    }
}

/// The number in lists of numbers, one list for each function, at a pair.
pub fn number(numbers: &[Items<u32>], at: Pair) -> u32
    ensures { result ≡ slice_index (slice_index_or numbers.now at.func []) (at.off / 4) }
{
    match numbers.get(at.func as usize) {
        Some(list) => match list.as_slice().get((at.off / 4) as usize) {
            Some(number) => *number,
            None => 0,
        },
        None => 0,
    }
}

/// Whether a word of this class in this state is a literal that some path reaches.
pub fn is_literal(site: Site, row: Option<FrameState>) -> bool
    ensures { result ≡ is_literal_of site row }
{
    match site {
        Site::Literal => row.is_some(),
        _ => false,
    }
}
