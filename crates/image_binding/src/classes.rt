// SPDX-License-Identifier: Apache-2.0
//! The classes of the words of all functions.
ghost use Rattle.std.specs.Prelude.{◌≡◌, ◌<◌, IfOk, length};
ghost use Rattle.image_rules.specs.Bound.{classes_of, sites_from};
ghost use Rattle.image_binding.specs.Binds.{AreLow, HaveWords, IsBinding, source};

use crate::binding::Binding;
use fn_sites::sites_with;
use sh_types::{Items, NoMemory, Site};
use std::alloc::Global;

/// The classes of the words of a function.
fn function_sites(
    alloc: Global,
    binding: &Binding,
    words: &[Items<u32>],
    entry: u32,
    func: u32,
) -> Result<Items<Site>, NoMemory>
    requires binding { IsBinding binding.now }
    requires many { length words.now ≡ length binding.now.functions }
    requires words { HaveWords binding.now.functions words.now }
    requires low { AreLow binding.now.functions }
    requires func { func < length words.now }
    ensures { IfOk result (λ found. found ≡ classes_of (source binding.now words.now entry func)) }
{
    sites_with(
        alloc,
        &binding.functions,
        func,
        words[func as usize].as_slice(),
        &binding.index,
        entry,
    )
}

/// The classes of the words of each function, which are the bound ones. `entry` is the number of the entry function.
#[tactic(auto, using(crate::proofs::Classing::sites_next, crate::proofs::Classing::sites_none))]
pub fn all_sites(
    alloc: Global,
    binding: &Binding,
    words: &[Items<u32>],
    entry: u32,
) -> Result<Vec<Items<Site>>, NoMemory>
    requires binding { IsBinding binding.now }
    requires many { length words.now ≡ length binding.now.functions }
    requires words { HaveWords binding.now.functions words.now }
    requires low { AreLow binding.now.functions }
    ensures { IfOk result (λ sites. sites.items ≡ sites_from (source binding.now words.now entry) 0 binding.now.functions) }
{
    let mut sites = Vec::with_capacity(alloc, words.len())?;
    for i in 0..words.len() {
        sites.push(function_sites(alloc, binding, words, entry, i as u32)?)?;
    }
    Ok(sites)
}
