// SPDX-License-Identifier: Apache-2.0
//! The classes of all words of a function.
ghost use Rattle.std.specs.Prelude.{◌≡◌, ◌+◌, ◌*◌, ◌<◌, ◌^◌, IfOk, List, Some, length, slice_index};
ghost use Rattle.sh_types.specs.declared.code.Pair.{Pair};
ghost use Rattle.sh_types.specs.declared.relocs.Reloc.{Reloc};
ghost use Rattle.rv_table.specs.Decoding.{decoded};
ghost use Rattle.sh_machines.specs.Class as class;
ghost use Rattle.fn_lookup.specs.Apart.{AreApart, home_in, size_in};
ghost use Rattle.fn_sites.specs.Body.{IsBody, source};
ghost use Rattle.image_rules.specs.Bound.{classes_of};
ghost use Rattle.fn_sites.specs.Index.{Tells};

use crate::body::{Body, bad};
use crate::index::SiteIndex;
use crate::jumps::{address_of, branch_word, jal_word};
use crate::pairs::jalr_word;
use crate::records::record_site;
use crate::sorts::{Sort, sort_of};
use crate::targets::targets;
use fn_lookup::{home_of, size_of};
use rv_decode::decode;
use rv_table::Instr;
use sh_types::{Function, Items, NoMemory, Pair, Reloc, Rule, Site};
use std::alloc::{AllocError, Global};

fn instr_site(body: &Body<'_>, number: usize, instr: &Instr) -> Site
    requires body { IsBody body.now }
    requires number { number < length body.now.words.now }
    ensures { (relocs : List Reloc) (labels : List Pair) → Tells body.now.index.now relocs labels → result ≡ class.instr_class (source body.now relocs labels) number (Some instr.now) }
{
    match sort_of(instr.op) {
        Sort::Auipc => Site::Literal,
        Sort::Jal => jal_word(body, number, instr),
        Sort::Jalr => jalr_word(body, number, instr),
        Sort::Branch => branch_word(body, number, instr),
        Sort::Ecall => Site::Environment,
        Sort::Ebreak => Site::Stop,
        Sort::Other => Site::Plain,
    }
}

/// The class of a word by its instruction alone.
fn word_site(body: &Body<'_>, number: usize) -> Site
    requires body { IsBody body.now }
    requires number { number < length body.now.words.now }
    ensures { (relocs : List Reloc) (labels : List Pair) → Tells body.now.index.now relocs labels → result ≡ class.instr_class (source body.now relocs labels) number (decoded (slice_index body.now.words.now number)) }
{
    match decode(body.words[number]) {
        None => Site::Stop,
        Some(instr) => instr_site(body, number, &instr),
    }
}

/// The entry function is called by nobody, and jumped to by itself alone.
fn entry_site(body: &Body<'_>, site: Site) -> Site
    ensures { (relocs : List Reloc) (labels : List Pair) → result ≡ class.entry_class (source body.now relocs labels) site }
{
    match site {
        Site::DirectCall { func } => {
            if func == body.entry {
                bad(Rule::EntryUsed)
            } else {
                Site::DirectCall { func }
            }
        }
        Site::DirectTail { func } => {
            if func == body.entry && func != body.func {
                bad(Rule::EntryUsed)
            } else {
                Site::DirectTail { func }
            }
        }
        other => other,
    }
}

fn class_at(body: &Body<'_>, number: usize) -> Site
    requires body { IsBody body.now }
    requires number { number < length body.now.words.now }
    ensures { (relocs : List Reloc) (labels : List Pair) → Tells body.now.index.now relocs labels → result ≡ class.class_at (source body.now relocs labels) number }
{
    let here = body.index.record(address_of(body, number));
    let site = entry_site(body, word_site(body, number));
    record_site(body, here, site)
}

fn classes(alloc: Global, body: &Body<'_>) -> Result<Vec<Site>, AllocError>
    requires { IsBody body.now }
    ensures { IfOk result (λ found. (relocs : List Reloc) (labels : List Pair) → Tells body.now.index.now relocs labels → found.items ≡ classes_of (source body.now relocs labels)) }
{
    let mut found = Vec::with_capacity(alloc, body.words.len())?;
    for number in 0..body.words.len() {
        found.push(class_at(body, number))?;
    }
    Ok(found)
}

/// The class of each word of a function: the first row of the table that applies. The words are the bound ones, the
/// records those that are used, and the index of records and labels is made once for all functions. `func` is the number
/// of a function and `entry` that of the entry function. The functions rise and share no byte; this one has four bytes
/// for each word, and ends below 2^64.
///
/// Err is want of memory. The time is that of sorting where the jumps and branches lead, and of a few binary searches
/// for each word.
pub fn sites_with(
    alloc: Global,
    functions: &Items<Function>,
    func: u32,
    words: &[u32],
    index: &SiteIndex,
    entry: u32,
) -> Result<Items<Site>, NoMemory>
    requires apart { AreApart functions.now }
    requires func { func < length functions.now }
    requires size { size_in functions.now func ≡ 4 * length words.now }
    requires low { home_in functions.now func + size_in functions.now func < 2 ^ 64 }
    ensures { IfOk result (λ found. (relocs : List Reloc) (labels : List Pair) → Tells index.now relocs labels → found ≡ classes_of (record { func = func; functions = functions.now; words = words.now; relocs = relocs; labels = labels; entry = entry })) }
{
    let functions = functions.as_slice();
    let home = home_of(functions, func);
    let targets = targets(alloc, home, words)?;
    let body = Body {
        functions,
        func,
        home,
        size: size_of(functions, func),
        words,
        entry,
        index,
        targets: targets.as_slice(),
    };
    Ok(Items::from_vec(classes(alloc, &body)?))
}

/// The class of each word of a function, as `sites_with`, over these records and labels. They are sorted first: for many
/// functions make the index once. Err is want of memory.
pub fn sites(
    alloc: Global,
    functions: &Items<Function>,
    func: u32,
    words: &[u32],
    relocs: &Items<Reloc>,
    labels: &Items<Pair>,
    entry: u32,
) -> Result<Items<Site>, NoMemory>
    requires apart { AreApart functions.now }
    requires func { func < length functions.now }
    requires size { size_in functions.now func ≡ 4 * length words.now }
    requires low { home_in functions.now func + size_in functions.now func < 2 ^ 64 }
    ensures { IfOk result (λ found. found ≡ classes_of (record { func = func; functions = functions.now; words = words.now; relocs = relocs.now; labels = labels.now; entry = entry })) }
{
    let index = SiteIndex::new(alloc, relocs, labels)?;
    sites_with(alloc, functions, func, words, &index, entry)
}
