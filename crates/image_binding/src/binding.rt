// SPDX-License-Identifier: Apache-2.0
//! What binds the words and the data of an image.
ghost use Rattle.std.specs.Prelude.{◌≡◌, ◌<◌, ◌^◌, All, IfOk, length, ◌++◌};
ghost use Rattle.std.specs.List.Sorted.{IsNonDecreasingBy};
ghost use Rattle.std.specs.Option.{option_to_list};
ghost use Rattle.sh_types.specs.declared.code.Function.{Function};
ghost use Rattle.elf_rules.specs.Bindable.{rising_by};
ghost use Rattle.fn_lookup.specs.Apart.{AreApart};
ghost use Rattle.image_rules.specs.declared.tokens.Token.{Token};
ghost use Rattle.image_rules.specs.Binding.{is_data_pointer as is_pointer_of, labels_of};
ghost use Rattle.image_rules.specs.Bound.{token_of_record, tokens_of, word_by};
ghost use Rattle.sh_machines.specs.Class.{record_on};
ghost use Rattle.image_binding.specs.Binds.{IsBinding, IsNarrow};

use elf_rules::kinds::{R_RISCV_32, R_RISCV_64, width_of};
use fn_sites::SiteIndex;
use image_rules::Token;
use ptr_table::{bind_data, bind_word, labels};
use sh_types::{Function, Items, NoMemory, Pair, Reloc};
use std::alloc::{AllocError, Global};

/// The functions and the records of a file, the labels that these give, and an index of records and labels.
#[derive(Drop)]
pub struct Binding {
    pub functions: Items<Function>,
    pub relocs: Items<Reloc>,
    pub labels: Items<Pair>,
    pub index: SiteIndex,
}

/// What binds an image with these functions by these records. The time is that of sorting the records.
pub fn bind(
    alloc: Global,
    functions: Items<Function>,
    relocs: Items<Reloc>,
) -> Result<Binding, NoMemory>
    requires apart { AreApart functions }
    requires few { length (labels_of functions relocs) < 2 ^ 32 }
    ensures functions { IfOk result (λ b. b.functions ≡ functions) }
    ensures relocs { IfOk result (λ b. b.relocs ≡ relocs) }
    ensures binds { IfOk result IsBinding }
{
    let labels = labels(alloc, &functions, &relocs)?;
    let index = SiteIndex::new(alloc, &relocs, &labels)?;
    Ok(Binding {
        functions,
        relocs,
        labels,
        index,
    })
}

/// The word at an address, by the record on it.
pub fn bound_word(binding: &Binding, address: u64, word: u32) -> u32
    requires { IsBinding binding.now }
    ensures { result ≡ word_by binding.now.functions (record_on binding.now.relocs address) word }
{
    match binding.index.record(address) {
        None => word,
        Some(reloc) => bind_word(&binding.functions, &reloc, word),
    }
}

#[tactic(auto, unfolding(image_rules::specs::Binding::is_data_pointer))]
fn is_data_pointer(reloc: &Reloc) -> bool
    ensures { result ≡ is_pointer_of reloc.now }
{
    !reloc.code && (reloc.kind == R_RISCV_32 || reloc.kind == R_RISCV_64)
}

/// The token that a record puts into data.
#[tactic(auto, unfolding(image_rules::specs::Bound::token_of_record))]
fn token(binding: &Binding, reloc: &Reloc) -> Option<Token>
    requires { IsBinding binding.now }
    ensures { option_to_list result ≡ token_of_record binding.now.functions binding.now.labels reloc.now }
{
    if !is_data_pointer(reloc) {
        return None;
    }
    match bind_data(&binding.functions, &binding.labels, reloc) {
        None => None,
        Some(value) => Some(Token {
            place: reloc.place,
            width: width_of(reloc.kind),
            value,
        }),
    }
}

fn tokens(alloc: Global, binding: &Binding) -> Result<Vec<Token>, AllocError>
    requires { IsBinding binding.now }
    ensures { IfOk result (λ found. found.items ≡ tokens_of binding.now.functions binding.now.labels binding.now.relocs) }
{
    let mut found = Vec::new(alloc);
    for reloc in binding.relocs.as_slice() {
        if let Some(token) = token(binding, reloc) {
            found.push(token)?;
        }
    }
    Ok(found)
}

/// The tokens that records put into data, by rising addresses.
pub fn tokens_in_order(alloc: Global, binding: &Binding) -> Result<Vec<Token>, AllocError>
    requires { IsBinding binding.now }
    ensures narrow { IfOk result (λ found. All IsNarrow found.items) }
    ensures rise { IfOk result (λ found. IsNonDecreasingBy (λ (t : Token). t.place) found.items) }
    ensures order { IfOk result (λ found. found.items ≡ rising_by (λ (t : Token). t.place) (tokens_of binding.now.functions binding.now.labels binding.now.relocs)) }
{
    let mut found = tokens(alloc, binding)?;
    found.sort_by_key(|token| token.place)?;
    Ok(found)
}
