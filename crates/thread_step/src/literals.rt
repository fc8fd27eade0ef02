// SPDX-License-Identifier: Apache-2.0
//! For each word of an image the number that it has as a literal.
ghost use Rattle.std.specs.Prelude.{◌≡◌, ◌+◌, ◌/◌, ◌<◌, ◌≤◌, IfOk, length, slice_index};
ghost use Rattle.sh_machines.specs.Copy.{literals_below};
ghost use Rattle.sh_machines.specs.Kind.{literal_of};
ghost use Rattle.sh_types.specs.Image.{sizes_of};
ghost use Rattle.sh_types.specs.Limits.{most_literals};
ghost use Rattle.sh_types.specs.Sized.{IsSized};
ghost use Rattle.thread_step.specs.Numbered.{AreNumbered, AreNumbers, IsNumbered};

use crate::reading::{is_literal, number, row, site, size};
use sh_types::{Image, Items, Pair};
use std::alloc::{AllocError, Global};

/// The numbers of the words of a function, and that of the next function's first word.
#[derive(Drop)]
struct Numbered {
    numbers: Items<u32>,
    next: u32,
}

/// The numbers that the words of a function have as literals; `first` is that of its first word.
fn numbers_of(alloc: Global, image: &Image, func: u32, first: u32) -> Result<Numbered, AllocError>
    requires few { literals_below image.now (length (sizes_of image.now)) ≤ most_literals }
    requires func { func < length (sizes_of image.now) }
    requires first { first ≡ literals_below image.now func }
    ensures numbers { IfOk result (λ n. AreNumbers image.now func (slice_index (sizes_of image.now) func / 4) n.numbers) }
    ensures next { IfOk result (λ n. n.next ≡ literals_below image.now (func + 1)) }
{
    let count = size(image, func) / 4;
    let mut numbers = Vec::with_capacity(alloc, count as usize)?;
    let mut next = first;
    for word in 0..count {
        numbers.push(next)?;
        let at = Pair {
            func,
            off: 4 * word,
        };
        if is_literal(site(image, at), row(image, at)) {
            next += 1;
        }
    }
    Ok(Numbered {
        numbers: Items::from_vec(numbers),
        next,
    })
}

/// The numbers that the words of all functions have as literals. Err only where memory is refused.
pub fn literal_numbers(alloc: Global, image: &Image) -> Result<Items<Items<u32>>, AllocError>
    requires few { literals_below image.now (length (sizes_of image.now)) ≤ most_literals }
    requires sized { IsSized (sizes_of image.now) }
    ensures { IfOk result (λ numbers. AreNumbered image.now (length (sizes_of image.now)) numbers) }
{
    let mut all = Vec::with_capacity(alloc, image.functions.len())?;
    let mut first = 0;
    for func in 0..image.functions.len() {
        let Numbered { numbers, next } = numbers_of(alloc, image, func as u32, first)?;
        all.push(numbers)?;
        first = next;
    }
    Ok(Items::from_vec(all))
}

/// The number that an AUIPC at a word of a function puts into its register; `numbers` are those that words have as
/// literals.
#[tactic(auto, using(crate::proofs::Lookups::number_found))]
pub fn literal_at(image: &Image, numbers: &[Items<u32>], at: Pair) -> u64
    requires numbered { IsNumbered image.now numbers.now }
    requires inside { at.off < slice_index (sizes_of image.now) at.func }
    ensures { result ≡ literal_of image.now at }
{
    let number = number(numbers, at);
    image
        .literals
        .as_slice()
        .get(number as usize)
        .copied()
        .unwrap_or(0)
}
