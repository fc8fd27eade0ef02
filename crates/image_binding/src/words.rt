// SPDX-License-Identifier: Apache-2.0
//! The words of functions, each by the record on it.
ghost use Rattle.std.specs.Prelude.{◌≡◌, ◌+◌, ◌*◌, ◌<◌, ◌≤◌, ◌^◌, All, IfOk, length, map};
ghost use Rattle.load_law.specs.Placed.{HasWords};
ghost use Rattle.elf_rules.specs.Bindable.{codes_in_order, function_words};
ghost use Rattle.elf_rules.specs.Elf.{number_at, places};
ghost use Rattle.image_rules.specs.Bound.{bound_words, words_by};
ghost use Rattle.image_binding.specs.Binds.{EndsInImage, IsBinding};
ghost use Rattle.image_binding.specs.Order.{AreApart};

use crate::binding::{Binding, bound_word};
use crate::order::file_place;
use elf_read::u32_at;
use elf_rules::Head;
use sh_types::{Function, Items};
use std::alloc::{AllocError, Global};

/// A number of 32-bit words from a place of the file on.
fn words_from(
    alloc: Global,
    bytes: &[u8],
    start: usize,
    count: u32,
) -> Result<Items<u32>, AllocError>
    requires { start + 4 * count ≤ length bytes.now }
    ensures { IfOk result (λ words. words ≡ map (number_at 4 bytes.now) (places 4 start count)) }
{
    let mut words = Vec::with_capacity(alloc, count as usize)?;
    let mut place = start;
    for _ in 0..count {
        words.push(u32_at(bytes, place))?;
        place += 4;
    }
    Ok(Items::from_vec(words))
}

#[tactic(auto, unfolding(elf_rules::specs::Bindable::function_words))]
fn function_words(
    alloc: Global,
    bytes: &[u8],
    codes: &[Head],
    function: &Function,
) -> Result<Items<u32>, AllocError>
    requires codes { codes.now ≡ codes_in_order bytes.now }
    requires apart { AreApart codes.now }
    requires words { HasWords bytes.now function.now }
    ensures { IfOk result (λ words. words ≡ function_words bytes.now codes.now function.now) }
{
    let place = file_place(codes, function.home);
    words_from(alloc, bytes, place as usize, function.size / 4)
}

/// Words, from an address on, each by the record on it.
fn words_by(
    alloc: Global,
    binding: &Binding,
    start: u64,
    words: &[u32],
) -> Result<Items<u32>, AllocError>
    requires binding { IsBinding binding.now }
    requires low { start + 4 * length words.now < 2 ^ 64 }
    ensures { IfOk result (λ found. found ≡ words_by binding.now.functions binding.now.relocs start words.now) }
{
    let mut found = Vec::with_capacity(alloc, words.len())?;
    let mut address = start;
    for word in words {
        found.push(bound_word(binding, address, *word))?;
        address += 4;
    }
    Ok(Items::from_vec(found))
}

/// The words of a function, each by the record on it.
#[tactic(auto, unfolding(image_rules::specs::Bound::bound_words))]
fn bound_words(
    alloc: Global,
    bytes: &[u8],
    codes: &[Head],
    binding: &Binding,
    function: &Function,
) -> Result<Items<u32>, AllocError>
    requires codes { codes.now ≡ codes_in_order bytes.now }
    requires apart { AreApart codes.now }
    requires words { HasWords bytes.now function.now }
    requires low { EndsInImage function.now }
    requires binding { IsBinding binding.now }
    ensures { IfOk result (λ words. words ≡ bound_words bytes.now binding.now.functions binding.now.relocs function.now) }
{
    let words = function_words(alloc, bytes, codes, function)?;
    words_by(alloc, binding, function.home, words.as_slice())
}

/// The words of each function, by the sections with code in order, each by the record on it.
pub fn all_words(
    alloc: Global,
    bytes: &[u8],
    codes: &[Head],
    binding: &Binding,
) -> Result<Vec<Items<u32>>, AllocError>
    requires codes { codes.now ≡ codes_in_order bytes.now }
    requires apart { AreApart codes.now }
    requires words { All (HasWords bytes.now) binding.now.functions }
    requires low { All EndsInImage binding.now.functions }
    requires binding { IsBinding binding.now }
    ensures { IfOk result (λ words. words.items ≡ map (bound_words bytes.now binding.now.functions binding.now.relocs) binding.now.functions) }
{
    let mut words = Vec::with_capacity(alloc, binding.functions.len())?;
    for function in binding.functions.as_slice() {
        words.push(bound_words(alloc, bytes, codes, binding, function)?)?;
    }
    Ok(words)
}
