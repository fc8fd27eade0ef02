// SPDX-License-Identifier: Apache-2.0
//! A function as its words are classed.
ghost use Rattle.std.specs.Prelude.{◌≡◌};
ghost use Rattle.sh_types.specs.declared.code.Site.TheVariants.{Bad};

use crate::index::SiteIndex;
use sh_types::{Function, Rule, Site};

/// A function among all functions: its number, its address, its size and its words, the number of the entry function,
/// the records and the labels of all, and where the function's jumps and branches lead to, rising.
#[derive(Clone, Copy)]
pub struct Body<'a> {
    pub functions: &'a [Function],
    pub func: u32,
    pub home: u64,
    pub size: u32,
    pub words: &'a [u32],
    pub entry: u32,
    pub index: &'a SiteIndex,
    pub targets: &'a [u64],
}

/// The class of a word that the rule refuses.
pub fn bad(rule: Rule) -> Site
    ensures { result ≡ Bad rule }
{
    Site::Bad { rule }
}
