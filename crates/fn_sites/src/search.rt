// SPDX-License-Identifier: Apache-2.0
//! Numbers that rise.
ghost use Rattle.std.specs.Prelude.{◌≡◌};
ghost use Rattle.std.specs.List.Sorted.{IsNonDecreasing};
ghost use Rattle.fn_sites.specs.Index.{is_among as is_among_of};

/// Whether the number is one of these.
pub fn is_among(numbers: &[u64], number: u64) -> bool
    requires { IsNonDecreasing numbers.now }
    ensures { result ≡ is_among_of numbers.now number }
{
    match numbers.binary_search(&number) {
        Ok(_) => true,
        Err(_) => false,
    }
}
