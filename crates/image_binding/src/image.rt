// SPDX-License-Identifier: Apache-2.0
//! The bound image of a file.
ghost use Rattle.std.specs.Prelude.{◌≡◌, ◌≤◌, IfOk, None, length, map, unwrap_or};
ghost use Rattle.elf_rules.specs.Bindable.{codes_in_order, entry_number, file_functions};
ghost use Rattle.elf_rules.specs.Coded.{IsCoded};
ghost use Rattle.elf_rules.specs.ElfRules.{IsReadFrom, first_failing, reloc_rules, table_rules};
ghost use Rattle.elf_rules.specs.Relocs.{relocs_of};
ghost use Rattle.elf_rules.specs.Elf.{entry_of, sections_of, symbols_of};
ghost use Rattle.elf_rules.specs.Splitting.{split_refusal};
ghost use Rattle.image_rules.specs.Binding.{labels_of};
ghost use Rattle.image_rules.specs.Bound.{bound_image, bound_parts, bound_regions, bound_words, sites_from, tokens_of};
ghost use Rattle.sh_machines.specs.Class.{source_of};
ghost use Rattle.sh_types.specs.Image.{number_of, starts_of};
ghost use Rattle.sh_types.specs.Limits.{most_functions};
ghost use Rattle.image_binding.specs.Binds.{AreCoded, IsBindingOf, IsBoundFile, made_of};
ghost use Rattle.image_binding.specs.Order.{AreApart};
ghost use Rattle.image_binding.specs.Stages.{IsBindableFile};

use crate::BoundFile;
use crate::bindable::BindableFile;
use crate::binding::{Binding, bind, tokens_in_order};
use crate::classes::all_sites;
use crate::order::{codes_in_order, filled_in_order};
use crate::regions::all_regions;
use crate::words::all_words;
use bound_law::tokens_are_apart;
use elf_rules::{Elf, Head};
use load_law::{
    codes_are_apart, function_words_lie_in_files, sections_are_bounded, segments_lie_in_files,
};
use ptr_table::{labels_are_few, rows};
use sh_types::{Function, Image, Items, NoMemory, Region, Reloc, Site};
use std::alloc::Global;

/// The number of the function at the entry.
fn entry_number(functions: &[Function], entry: u64) -> u32
    requires { length functions.now ≤ most_functions }
    ensures { result ≡ unwrap_or (number_of (starts_of functions.now) entry) 0 }
{
    functions
        .iter()
        .position(|function| function.home == entry)
        .unwrap_or(0) as u32
}

/// What binds the image of a file with these functions and records.
fn file_binding(
    alloc: Global,
    bytes: &[u8],
    functions: Items<Function>,
    relocs: Items<Reloc>,
) -> Result<Binding, NoMemory>
    requires functions { functions ≡ file_functions bytes.now }
    requires relocs { relocs ≡ relocs_of bytes.now }
    requires coded { AreCoded functions }
    ensures { IfOk result (IsBindingOf bytes.now) }
{
    labels_are_few();
    bind(alloc, functions, relocs)
}

/// The readable bytes of a file with its tokens, by its sections with code in order.
#[tactic(auto, unfolding(image_rules::specs::Bound::bound_regions))]
fn file_regions(
    alloc: Global,
    bytes: &[u8],
    elf: &Elf,
    codes: &[Head],
    binding: &Binding,
) -> Result<Vec<Region>, NoMemory>
    requires tables { IsReadFrom elf.now bytes.now }
    requires codes { codes.now ≡ codes_in_order bytes.now }
    requires apart { AreApart codes.now }
    requires recorded { first_failing reloc_rules bytes.now ≡ None }
    requires binding { IsBindingOf bytes.now binding.now }
    ensures { IfOk result (λ regions. regions.items ≡ bound_regions bytes.now (tokens_of (file_functions bytes.now) (labels_of (file_functions bytes.now) (relocs_of bytes.now)) (relocs_of bytes.now))) }
{
    segments_lie_in_files();
    sections_are_bounded();
    tokens_are_apart();
    let tokens = tokens_in_order(alloc, binding)?;
    let segments = filled_in_order(alloc, elf.segments.as_slice())?;
    let regions = all_regions(alloc, bytes, &tokens, codes, &segments)?;
    Ok(regions)
}

/// The words of a file's functions, bound.
fn file_words(
    alloc: Global,
    bytes: &[u8],
    codes: &[Head],
    binding: &Binding,
) -> Result<Vec<Items<u32>>, NoMemory>
    requires fine { first_failing table_rules bytes.now ≡ None }
    requires split { split_refusal (symbols_of bytes.now) (sections_of bytes.now) (entry_of bytes.now) ≡ None }
    requires codes { codes.now ≡ codes_in_order bytes.now }
    requires apart { AreApart codes.now }
    requires coded { AreCoded binding.now.functions }
    requires binding { IsBindingOf bytes.now binding.now }
    ensures { IfOk result (λ words. words.items ≡ map (bound_words bytes.now (file_functions bytes.now) (relocs_of bytes.now)) (file_functions bytes.now)) }
{
    function_words_lie_in_files();
    let words = all_words(alloc, bytes, codes, binding)?;
    Ok(words)
}

/// The classes of a file's words, which are the bound ones.
fn file_sites(
    alloc: Global,
    bytes: &[u8],
    binding: &Binding,
    words: &[Items<u32>],
    entry: u32,
) -> Result<Vec<Items<Site>>, NoMemory>
    requires coded { IsCoded (bound_image bytes.now) }
    requires binding { IsBindingOf bytes.now binding.now }
    requires words { words.now ≡ map (bound_words bytes.now (file_functions bytes.now) (relocs_of bytes.now)) (file_functions bytes.now) }
    requires entry { entry ≡ entry_number bytes.now }
    ensures { IfOk result (λ sites. sites.items ≡ sites_from (source_of (bound_parts bytes.now (file_functions bytes.now) (relocs_of bytes.now)) (relocs_of bytes.now)) 0 (file_functions bytes.now)) }
{
    let sites = all_sites(alloc, binding, words, entry)?;
    Ok(sites)
}

/// The image that was bound, with what bound it.
fn bound_file(
    alloc: Global,
    binding: Binding,
    entry: u32,
    words: Vec<Items<u32>>,
    sites: Vec<Items<Site>>,
    rows: Items<u32>,
    regions: Vec<Region>,
) -> BoundFile
    ensures image { result.image ≡ made_of binding.functions entry words.items sites.items rows binding.labels regions.items }
    ensures relocs { result.relocs ≡ binding.relocs }
    ensures index { result.index ≡ binding.index }
{
    let Binding {
        functions,
        relocs,
        labels,
        index,
    } = binding;
    let image = Image {
        functions,
        entry,
        words: Items::from_vec(words),
        sites: Items::from_vec(sites),
        frames: Items::new(alloc),
        literals: Items::new(alloc),
        rows,
        labels,
        regions: Items::from_vec(regions),
    };
    BoundFile {
        image,
        relocs,
        index,
    }
}

/// The bound image of a file that can be bound, with its records and an index.
pub fn bound_of(alloc: Global, bytes: &[u8], file: BindableFile) -> Result<BoundFile, NoMemory>
    requires bindable { IsBindableFile bytes.now file }
    requires coded { IsCoded (bound_image bytes.now) }
    ensures { IfOk result (IsBoundFile bytes.now) }
{
    let BindableFile {
        elf,
        functions,
        relocs,
    } = file;
    codes_are_apart();
    let entry = entry_number(functions.as_slice(), elf.entry);
    let rows = rows(alloc, &functions, &relocs)?;
    let codes = codes_in_order(alloc, elf.heads.as_slice())?;
    let binding = file_binding(alloc, bytes, functions, relocs)?;
    let words = file_words(alloc, bytes, &codes, &binding)?;
    let regions = file_regions(alloc, bytes, &elf, &codes, &binding)?;
    let sites = file_sites(alloc, bytes, &binding, &words, entry)?;
    Ok(bound_file(alloc, binding, entry, words, sites, rows, regions))
}
