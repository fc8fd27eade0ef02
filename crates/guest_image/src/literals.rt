// SPDX-License-Identifier: Apache-2.0
//! The numbers that reached AUIPC words give.
ghost use Rattle.std.specs.Prelude.{◌≡◌, ◌+◌, ◌*◌, ◌<◌, ◌^◌, ◌++◌, IfOk, None, OnOk, length, slice_index_or};
ghost use Rattle.fn_lookup.specs.Apart.{AreApart};
ghost use Rattle.fn_sites.specs.Index.{Tells};
ghost use Rattle.image_rules.specs.Binding.{literal_of};
ghost use Rattle.image_rules.specs.Framed.{all_literals as all_by};
ghost use Rattle.sh_machines.specs.Copy.{is_literal as is_literal_by};
ghost use Rattle.guest_image.specs.Literals.{IsFramable, framed, literals_by, literals_in};

use image_binding::BoundFile;
use ptr_table::literal_by;
use sh_types::{FrameState, FrameTable, Items, Site};
use std::alloc::{AllocError, Global};

/// The number that the AUIPC at an address gives.
fn literal(bound: &BoundFile, address: u64, word: u32) -> u64
    requires apart { AreApart bound.now.image.functions }
    requires tells { Tells bound.now.index bound.now.relocs bound.now.image.labels }
    ensures { result ≡ literal_of bound.now.image.functions bound.now.relocs address word }
{
    literal_by(
        &bound.image.functions,
        bound.index.record(address),
        address,
        word,
    )
}

/// Whether the word with a number is a reached AUIPC.
fn is_literal(site: Site, rows: &[Option<FrameState>], at: usize) -> bool
    ensures { result ≡ is_literal_by site (slice_index_or rows.now at None) }
{
    at < rows.len() && site == Site::Literal && rows[at].is_some()
}

/// The numbers of a function more, which starts at `home`, with the classes and the rows of its words.
fn add_literals(
    literals: &mut Vec<u64>,
    bound: &BoundFile,
    home: u64,
    words: &[u32],
    sites: &[Site],
    rows: &[Option<FrameState>],
) -> Result<(), AllocError>
    requires apart { AreApart bound.now.image.functions }
    requires tells { Tells bound.now.index bound.now.relocs bound.now.image.labels }
    requires low { home + 4 * length words.now < 2 ^ 64 }
    requires classed { length sites.now ≡ length words.now }
    ensures { OnOk result (literals.new.items ≡ literals.old.items ++ literals_by bound.now.image.functions bound.now.relocs sites.now rows.now home 0 words.now) }
{
    let mut address = home;
    for (at, word) in words.iter().enumerate() {
        if is_literal(sites[at], rows, at) {
            literals.push(literal(bound, address, *word))?;
        }
        address += 4;
    }
    Ok(())
}

/// The numbers of the function with a number more.
fn add_function(
    literals: &mut Vec<u64>,
    bound: &BoundFile,
    frames: &[FrameTable],
    func: usize,
) -> Result<(), AllocError>
    requires framable { IsFramable bound.now }
    requires frames { length frames.now ≡ length bound.now.image.functions }
    requires func { func < length bound.now.image.functions }
    ensures { OnOk result (literals.new.items ≡ literals.old.items ++ literals_in bound.now frames.now func) }
{
    let functions = bound.image.functions.as_slice();
    let words = bound.image.words.as_slice();
    let sites = bound.image.sites.as_slice();
    add_literals(
        literals,
        bound,
        functions[func].home,
        words[func].as_slice(),
        sites[func].as_slice(),
        frames[func].rows.as_slice(),
    )
}

/// The numbers that the reached AUIPC words of an image give, in the order of the functions and in each by offset. `frames`
/// has the rows of its functions. The time is that of a binary search or two for each AUIPC.
pub fn all_literals(
    alloc: Global,
    bound: &BoundFile,
    frames: &[FrameTable],
) -> Result<Items<u64>, AllocError>
    requires framable { IsFramable bound.now }
    requires frames { length frames.now ≡ length bound.now.image.functions }
    ensures { IfOk result (λ literals. literals ≡ all_by (framed bound.now.image frames.now) bound.now.relocs 0 bound.now.image.functions) }
{
    let mut literals = Vec::new(alloc);
    for func in 0..frames.len() {
        add_function(&mut literals, bound, frames, func)?;
    }
    Ok(Items::from_vec(literals))
}
