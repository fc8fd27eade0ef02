// SPDX-License-Identifier: Apache-2.0
//! What records put into data.
ghost use Rattle.std.specs.Prelude.{◌≡◌, ◌==◌, ◌<◌, ◌≤◌, ◌^◌, ℕ, length, slice_index_or};
ghost use Rattle.std.specs.List.{position_from};
ghost use Rattle.std.specs.List.Sorted.{IsNonDecreasingBy};
ghost use Rattle.sh_types.specs.declared.code.Pair.{Pair};
ghost use Rattle.fn_lookup.specs.Apart.{AreApart, home_in};
ghost use Rattle.image_rules.specs.Binding as binding;

use fn_lookup::{named_by, started_at};
use sh_types::{Function, Items, Pair, Reloc};
use token_lookup::{label_token, token_of};

/// Where a function starts; 0 where there is none of that number.
fn start_of(functions: &[Function], func: u32) -> u64
    ensures { result ≡ home_in functions.now func }
{
    match functions.get(func as usize) {
        Some(function) => function.home,
        None => 0,
    }
}

/// The address of a label.
fn label_home(functions: &[Function], label: &Pair) -> u128
    ensures { result ≡ binding.label_home functions.now label.now }
{
    u128::from(start_of(functions, label.func)) + u128::from(label.off)
}

/// How many labels stand before an address.
fn labels_before(functions: &[Function], labels: &[Pair], address: u128) -> usize
    requires { IsNonDecreasingBy (binding.label_home functions.now) labels.now }
    ensures bound { result ≤ length labels.now }
    ensures below { (k : ℕ) (d : Pair) → k < result → binding.label_home functions.now (slice_index_or labels.now k d) < address }
    ensures above { (k : ℕ) (d : Pair) → result ≤ k → k < length labels.now → address ≤ binding.label_home functions.now (slice_index_or labels.now k d) }
{
    labels.partition_point(|label| label_home(functions, label) < address)
}

/// The number of the label at an address.
fn label_number(functions: &[Function], labels: &[Pair], address: u128) -> Option<u32>
    requires few { length labels.now < 2 ^ 32 }
    requires rise { IsNonDecreasingBy (binding.label_home functions.now) labels.now }
    ensures { result ≡ position_from (λ p. binding.label_home functions.now p == address) 0 labels.now }
{
    let number = labels_before(functions, labels, address);
    if number == labels.len() {
        return None;
    }
    if label_home(functions, &labels[number]) == address {
        Some(number as u32)
    } else {
        None
    }
}

fn label_at(functions: &[Function], labels: &[Pair], address: Option<u128>) -> Option<u32>
    requires few { length labels.now < 2 ^ 32 }
    requires rise { IsNonDecreasingBy (binding.label_home functions.now) labels.now }
    ensures { result ≡ binding.label_at functions.now labels.now address }
{
    match address {
        None => None,
        Some(address) => label_number(functions, labels, address),
    }
}

/// What a record in data puts at its place: the token of the function that starts at S + A (RISC-V psABI, "Relocations"),
/// or of the label there; None exactly where there is neither. The labels stand by rising addresses, as `labels` gives
/// them. It looks at as many functions and labels as halvings of their numbers, and takes no memory.
#[tactic(auto, unfolding(image_rules::specs::Binding::bound_data))]
pub fn bind_data(functions: &Items<Function>, labels: &Items<Pair>, reloc: &Reloc) -> Option<u64>
    requires apart { AreApart functions.now }
    requires few { length labels.now < 2 ^ 32 }
    requires rise { IsNonDecreasingBy (binding.label_home functions.now) labels.now }
    ensures { result ≡ binding.bound_data functions.now labels.now reloc.now }
{
    let address = named_by(reloc);
    match started_at(functions.as_slice(), address) {
        Some(func) => Some(token_of(func)),
        None => match label_at(functions.as_slice(), labels.as_slice(), address) {
            Some(number) => Some(label_token(number)),
            None => None,
        },
    }
}
