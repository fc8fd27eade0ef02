// SPDX-License-Identifier: Apache-2.0
//! What the words of an image are in every copy, made once.
ghost use Rattle.std.specs.Prelude.{◌≡◌, ◌+◌, ◌/◌, ◌%◌, ◌<◌, ◌≤◌, [], IfOk, length, slice_index, slice_index_or};
ghost use Rattle.sh_machines.specs.Copy.{IsCopyable, literal_number, literals_below, moved_word};
ghost use Rattle.sh_types.specs.declared.layouts.Layout.{Layout};
ghost use Rattle.sh_types.specs.Image.{sizes_of};
ghost use Rattle.sh_types.specs.Limits.{most_functions, most_literals};
ghost use Rattle.code_copier.specs.Template.{AreCopied, FunctionsAreCopied, IsTemplate, Leads, word_by};

use crate::reading::{is_literal, row, site, size, word};
use crate::words::{CopiedWord, by_class};
use rv_decode::decode;
use sh_types::{Image, Items, NoMemory, Pair};
use std::alloc::{AllocError, Global};

/// What the words of an image's functions are in every copy, so that no word is decoded as a copy is made.
#[derive(Debug, Drop)]
pub struct Template {
    functions: Items<Items<CopiedWord>>,
}

impl Template {
    /// The template of an image. Err only where memory is refused.
    pub fn new(alloc: Global, image: &Image) -> Result<Template, NoMemory>
        requires copyable { IsCopyable image.now }
        requires few { length (sizes_of image.now) ≤ most_functions }
        ensures { IfOk result (λ t. IsTemplate image.now t) }
    {
        let functions = copied_functions(alloc, image)?;
        Ok(Template { functions })
    }

    /// The words of a function.
    pub(crate) fn words_of(&self, func: u32) -> &[CopiedWord]
        ensures { result.now ≡ slice_index_or self.now.functions func [] }
    {
        match self.functions.as_slice().get(func as usize) {
            Some(words) => words.as_slice(),
            None => &[],
        }
    }
}

/// The words of a function, and the number of the next function's first literal.
#[derive(Drop)]
struct CopiedFunction {
    words: Items<CopiedWord>,
    next: u32,
}

/// What the word at a pair is in every copy. `number` is that of the literal.
#[tactic(auto, unfolding(sh_machines::specs::Copy::moved_word))]
fn copied_word(image: &Image, at: Pair, number: u32) -> CopiedWord
    requires copyable { IsCopyable image.now }
    requires whole { at.off % 4 ≡ 0 }
    requires number { number ≡ literal_number image.now at.func (at.off / 4) }
    requires few { number < most_literals }
    ensures leads { Leads (length (sizes_of image.now)) result }
    ensures word { (l : Layout) → word_by l at result ≡ moved_word image.now l at }
{
    let Some(state) = row(image, at) else {
        return CopiedWord::Fixed(0);
    };
    let word = word(image, at);
    match decode(word) {
        Some(instr) => by_class(number, state, word, instr, site(image, at)),
        None => CopiedWord::Fixed(0),
    }
}

/// What the words of a function are in every copy. `first` is the number of its first literal.
fn copied_function(
    alloc: Global,
    image: &Image,
    func: u32,
    first: u32,
) -> Result<CopiedFunction, AllocError>
    requires copyable { IsCopyable image.now }
    requires func { func < length (sizes_of image.now) }
    requires first { first ≡ literals_below image.now func }
    ensures words { IfOk result (λ f. AreCopied image.now func (slice_index (sizes_of image.now) func / 4) f.words) }
    ensures next { IfOk result (λ f. f.next ≡ literals_below image.now (func + 1)) }
{
    let count = size(image, func) / 4;
    let mut words = Vec::with_capacity(alloc, count as usize)?;
    let mut next = first;
    for i in 0..count {
        let at = Pair { func, off: 4 * i };
        words.push(copied_word(image, at, next))?;
        if is_literal(site(image, at), row(image, at)) {
            next += 1;
        }
    }
    Ok(CopiedFunction {
        words: Items::from_vec(words),
        next,
    })
}

/// What the words of all functions are in every copy.
#[tactic(auto, using(crate::proofs::Templates::functions_more))]
fn copied_functions(alloc: Global, image: &Image) -> Result<Items<Items<CopiedWord>>, AllocError>
    requires copyable { IsCopyable image.now }
    requires few { length (sizes_of image.now) ≤ most_functions }
    ensures { IfOk result (λ functions. FunctionsAreCopied image.now (length (sizes_of image.now)) functions) }
{
    let mut functions = Vec::with_capacity(alloc, image.functions.len())?;
    let mut first = 0;
    for func in 0..image.functions.len() {
        let CopiedFunction { words, next } = copied_function(alloc, image, func as u32, first)?;
        functions.push(words)?;
        first = next;
    }
    Ok(Items::from_vec(functions))
}
