// SPDX-License-Identifier: Apache-2.0
//! Digests of copies.
ghost use Rattle.std.specs.Prelude.{◌≡◌, ◌+◌, ◌-◌, ◌/◌, ◌++◌, take, drop, IfOk, OnOk};
ghost use Rattle.sha2.specs.Sha256.{sha256};
ghost use Rattle.sh_types.specs.Place.{WellPlaced};
ghost use Rattle.period_report.specs.Full.{word_bytes, code_bytes as code_bytes_of};

use sh_types::{CodeCopy, Layout};
use sha2::{Digest, Sha256};
use std::alloc::{AllocError, Global};

/// So many words from the first on, or as many as there are.
fn part(words: &[u32], first: usize, count: usize) -> &[u32]
    ensures { result.now ≡ take count (drop first words.now) }
{
    let first = first.min(words.len());
    let rest = &words[first..];
    &rest[..count.min(rest.len())]
}

/// The words of a function and its guard, as bytes behind the others.
fn push_function(
    bytes: &mut Vec<u8>,
    copy: &CodeCopy,
    place: u64,
    size: u32,
) -> Result<(), AllocError>
    ensures { OnOk result (bytes.new.items ≡ bytes.old.items ++ word_bytes (take (size / 4 + 1) (drop ((place - copy.now.start) / 4) copy.now.words))) }
{
    let first = (place.saturating_sub(copy.start) / 4) as usize;
    let words = part(copy.words.as_slice(), first, (size / 4) as usize + 1);
    for word in words {
        bytes.extend_from_slice(word.to_le_bytes().as_slice())?;
    }
    Ok(())
}

/// The functions of a copy, each with its guard, as bytes.
fn code_bytes(alloc: Global, copy: &CodeCopy, layout: &Layout) -> Result<Vec<u8>, AllocError>
    requires { WellPlaced layout.now }
    ensures { IfOk result (λ bytes. bytes.items ≡ code_bytes_of copy.now layout.now) }
{
    let places = layout.places.as_slice();
    let sizes = layout.sizes.as_slice();
    let mut bytes = Vec::new(alloc);
    for function in 0..places.len() {
        push_function(&mut bytes, copy, places[function], sizes[function])?;
    }
    Ok(bytes)
}

/// The digest of the functions of a layout's copy.
pub fn digest(alloc: Global, copy: &CodeCopy, layout: &Layout) -> Result<[u8; 32], AllocError>
    requires { WellPlaced layout.now }
    ensures { IfOk result (λ digest. digest ≡ sha256 (code_bytes_of copy.now layout.now)) }
{
    let bytes = code_bytes(alloc, copy, layout)?;
    Ok(Sha256::digest(bytes.as_slice()))
}
