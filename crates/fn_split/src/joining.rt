// SPDX-License-Identifier: Apache-2.0
//! Starts of one home join.
ghost use Rattle.std.specs.Prelude.{◌≡◌, All, IfOk};
ghost use Rattle.elf_rules.specs.Splitting as splitting;
ghost use Rattle.fn_split.specs.Low.{EndsLow};
ghost use Rattle.fn_split.specs.Merge.{grown, merged, merged_all};

use elf_rules::Start;
use std::alloc::{AllocError, Global};

/// The first start with the greater of two sizes.
fn grown(first: Start, other: Start) -> Start
    ensures { result ≡ grown first other }
{
    Start {
        size: first.size.max(other.size),
        ..first
    }
}

/// Neighbours of one home join, from one start on.
fn merged_from(alloc: Global, first: Start, rest: &[Start]) -> Result<Vec<Start>, AllocError>
    requires first { EndsLow first }
    requires rest { All EndsLow rest.now }
    ensures merged { IfOk result (λ found. found.items ≡ merged first rest.now) }
    ensures low { IfOk result (λ found. All EndsLow found.items) }
{
    let mut found = Vec::new(alloc);
    let mut current = first;
    for start in rest {
        if start.home == current.home {
            current = grown(current, *start);
        } else {
            found.push(current)?;
            current = *start;
        }
    }
    found.push(current)?;
    Ok(found)
}

/// Neighbours of one home join.
fn merged(alloc: Global, starts: &[Start]) -> Result<Vec<Start>, AllocError>
    requires { All EndsLow starts.now }
    ensures merged { IfOk result (λ found. found.items ≡ merged_all starts.now) }
    ensures low { IfOk result (λ found. All EndsLow found.items) }
{
    match starts {
        [] => Ok(Vec::new(alloc)),
        [first, rest @ ..] => {
            let found = merged_from(alloc, *first, rest)?;
            Ok(found)
        }
    }
}

/// The starts of each home as one, by rising homes.
pub fn joined(alloc: Global, starts: &[Start]) -> Result<Vec<Start>, AllocError>
    requires { All EndsLow starts.now }
    ensures joined { IfOk result (λ found. found.items ≡ splitting.joined starts.now) }
    ensures low { IfOk result (λ found. All EndsLow found.items) }
{
    let mut ordered = starts.to_vec(alloc)?;
    ordered.sort_by_key(|start| start.home)?;
    let found = merged(alloc, &ordered)?;
    Ok(found)
}
