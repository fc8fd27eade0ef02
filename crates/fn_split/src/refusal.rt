// SPDX-License-Identifier: Apache-2.0
//! Which function is refused.
ghost use Rattle.std.specs.Prelude.{◌≡◌, ◌<◌, ◌^◌, All, None};
ghost use Rattle.elf_rules.specs.declared.starts.Start.{Start};
ghost use Rattle.elf_rules.specs.Splitting as splitting;
ghost use Rattle.fn_split.specs.Low.{EndsLow};

use elf_rules::{SplitFault, SplitRule, Start};

/// What is wrong with a function, given the end of the one before.
#[tactic(auto, unfolding(elf_rules::specs::Splitting::fault_of))]
fn fault(before: u128, function: &Start) -> Option<SplitRule>
    ensures { result ≡ splitting.fault_of before function.now }
{
    let end = u128::from(function.home) + u128::from(function.size);
    if function.home % 4 != 0 || function.size % 4 != 0 {
        return Some(SplitRule::Unaligned);
    }
    if function.size == 0
        || function.home < function.low
        || function.high <= function.home
        || u128::from(function.high) < end
    {
        return Some(SplitRule::Size);
    }
    if u128::from(function.home) < before {
        return Some(SplitRule::Overlap);
    }
    None
}

/// The first function that is refused by itself or by the one before.
fn first_refused(functions: &[Start]) -> Option<SplitFault>
    ensures { result ≡ splitting.first_refused 0 functions.now }
{
    let mut before: u128 = 0;
    for function in functions {
        if let Some(rule) = fault(before, function) {
            return Some(SplitFault::Rule {
                home: function.home,
                rule,
            });
        }
        before = u128::from(function.home) + u128::from(function.size);
    }
    None
}

#[tactic(auto, unfolding(elf_rules::specs::Splitting::holds_inside))]
fn holds_inside(entry: u64, function: &Start) -> bool
    ensures { result ≡ splitting.holds_inside entry function.now }
{
    function.home < entry
        && u128::from(entry) < u128::from(function.home) + u128::from(function.size)
}

/// The function that has the entry inside.
fn inside(entry: u64, functions: &[Start]) -> Option<SplitFault>
    ensures { result ≡ splitting.inside_of entry functions.now }
{
    for function in functions {
        if holds_inside(entry, function) {
            return Some(SplitFault::Rule {
                home: function.home,
                rule: SplitRule::EntryInside,
            });
        }
    }
    None
}

/// Which function is refused, if any; where none is, sizes fit 32 bits.
#[tactic(auto, using(crate::proofs::Small::small))]
pub fn refusal(entry: u64, functions: &[Start]) -> Option<SplitFault>
    requires { All EndsLow functions.now }
    ensures refusal { result ≡ splitting.split_or (splitting.first_refused 0 functions.now) (splitting.inside_of entry functions.now) }
    ensures small { result ≡ None → All (λ (f : Start). f.size < 2 ^ 32) functions.now }
{
    match first_refused(functions) {
        Some(fault) => Some(fault),
        None => inside(entry, functions),
    }
}
