// SPDX-License-Identifier: Apache-2.0
//! Rows and labels.
ghost use Rattle.std.specs.Prelude.{◌≡◌, ◌<◌, ◌^◌, IfOk, length};
ghost use Rattle.std.specs.List.Sorted.{IsNonDecreasing, IsNonDecreasingBy};
ghost use Rattle.fn_lookup.specs.Apart.{AreApart};
ghost use Rattle.image_rules.specs.Binding as binding;
ghost use Rattle.token_lookup.specs.Rising.{Rises};
ghost use Rattle.ptr_table.specs.Taken.{has, has_offset, kept, labels_at, labels_by, rows_by};

use crate::addresses::{addresses, contains};
use sh_types::{Function, Items, NoMemory, Pair, Reloc};
use std::alloc::{AllocError, Global};

fn row_of(taken: &[u128], home: u64, number: u32) -> Option<u32>
    requires { IsNonDecreasing taken.now }
    ensures { result ≡ kept (has taken.now home) number }
{
    if contains(taken, u128::from(home)) {
        Some(number)
    } else {
        None
    }
}

fn rows_in(alloc: Global, functions: &[Function], taken: &[u128]) -> Result<Vec<u32>, AllocError>
    requires few { length functions.now < 2 ^ 32 }
    requires rise { IsNonDecreasing taken.now }
    ensures { IfOk result (λ found. found.items ≡ rows_by 0 functions.now taken.now) }
{
    let mut found = Vec::new(alloc);
    let mut number: u32 = 0;
    for function in functions {
        if let Some(row) = row_of(taken, function.home, number) {
            found.push(row)?;
        }
        number += 1;
    }
    Ok(found)
}

/// The numbers of the functions whose start a record takes as data, rising: an R_RISCV_32 or R_RISCV_64 in data, or an
/// R_RISCV_HI20, LO12_I, LO12_S or PCREL_HI20 in code (RISC-V psABI, "Relocations"). The time is that of sorting the records.
#[tactic(auto, using(crate::proofs::Tabling::rows_same))]
pub fn rows(
    alloc: Global,
    functions: &Items<Function>,
    relocs: &Items<Reloc>,
) -> Result<Items<u32>, NoMemory>
    requires { AreApart functions.now }
    ensures rows { IfOk result (λ found. found ≡ binding.rows_of functions.now relocs.now) }
    ensures rise { IfOk result (λ found. Rises found) }
{
    let taken = addresses(alloc, relocs.as_slice(), true)?;
    let found = rows_in(alloc, functions.as_slice(), &taken)?;
    Ok(Items::from_vec(found))
}

fn is_label(taken: &[u128], home: u64, off: u64) -> bool
    requires { IsNonDecreasing taken.now }
    ensures { result ≡ has_offset taken.now home off }
{
    contains(taken, u128::from(home) + u128::from(off))
}

/// The labels of a function.
fn labels_in(
    alloc: Global,
    func: u32,
    home: u64,
    size: u32,
    taken: &[u128],
) -> Result<Vec<Pair>, AllocError>
    requires { IsNonDecreasing taken.now }
    ensures { IfOk result (λ found. found.items ≡ labels_at func home size taken.now) }
{
    let count = size.saturating_sub(1) / 4;
    let mut found = Vec::new(alloc);
    let mut off: u64 = 4;
    for _ in 0..count {
        if is_label(taken, home, off) {
            found.push(Pair {
                func,
                off: off as u32,
            })?;
        }
        off += 4;
    }
    Ok(found)
}

fn all_labels(
    alloc: Global,
    functions: &[Function],
    taken: &[u128],
) -> Result<Vec<Pair>, AllocError>
    requires few { length functions.now < 2 ^ 32 }
    requires rise { IsNonDecreasing taken.now }
    ensures { IfOk result (λ found. found.items ≡ labels_by 0 functions.now taken.now) }
{
    let mut found = Vec::new(alloc);
    let mut number: u32 = 0;
    for function in functions {
        let labels = labels_in(alloc, number, function.home, function.size, taken)?;
        found.extend_from_slice(&labels)?;
        number += 1;
    }
    Ok(found)
}

/// The labels: the places of whole words inside functions, past the start, that an R_RISCV_32 or R_RISCV_64 in data names, by rising
/// function and then by rising offset, and so by rising addresses. The time is that of sorting the records, and of a binary search
/// for each word.
#[tactic(auto, using(crate::proofs::Tabling::labels_same))]
pub fn labels(
    alloc: Global,
    functions: &Items<Function>,
    relocs: &Items<Reloc>,
) -> Result<Items<Pair>, NoMemory>
    requires { AreApart functions.now }
    ensures labels { IfOk result (λ found. found ≡ binding.labels_of functions.now relocs.now) }
    ensures rise { IfOk result (λ found. IsNonDecreasingBy (binding.label_home functions.now) found) }
{
    let taken = addresses(alloc, relocs.as_slice(), false)?;
    let found = all_labels(alloc, functions.as_slice(), &taken)?;
    Ok(Items::from_vec(found))
}
