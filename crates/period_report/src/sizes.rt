// SPDX-License-Identifier: Apache-2.0
//! The bytes of code.
ghost use Rattle.std.specs.Prelude.{◌≡◌, ◌≤◌, length};
ghost use Rattle.std.specs.List.{sum};
ghost use Rattle.sh_types.specs.Limits.{most_functions};

/// The bytes of functions of these sizes.
pub fn total(sizes: &[u32]) -> u64
    requires { length sizes.now ≤ most_functions }
    ensures { result ≡ sum sizes.now }
{
    let mut bytes = 0u64;
    for size in sizes {
        bytes += u64::from(*size);
    }
    bytes
}
