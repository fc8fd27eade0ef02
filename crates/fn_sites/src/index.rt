// SPDX-License-Identifier: Apache-2.0
//! The records and the labels of an image, sorted once for all functions.
ghost use Rattle.std.specs.Prelude.{◌≡◌, ◌<◌, ◌≤◌, ◌^◌, ◌&&◌, ◌||◌, ℕ, IfOk, filter};
ghost use Rattle.std.specs.List.Sorted.{IsNonDecreasing};
ghost use Rattle.sh_types.specs.declared.relocs.Reloc.{Reloc};
ghost use Rattle.sh_machines.specs.Constants.{is_label_at};
ghost use Rattle.elf_rules.specs.Relocs.{record_at};
ghost use Rattle.fn_sites.specs.Index.{Tells, is_among as is_among_of, label_number as number_of};

use crate::search::is_among;
use reloc_index::RelocIndex;
use sh_types::{Items, NoMemory, Pair, Reloc};
use std::alloc::{AllocError, Global};
use std::marker::Model;

/// The records on code and the labels of an image. Contracts see what it finds (`Tells`).
#[derive(Drop)]
pub struct SiteIndex {
    records: RelocIndex,
    labels: Vec<u64>,
}

impl Model for SiteIndex {
    ghost use Rattle.std.specs.List.Sorted.{IsNonDecreasing};
    ghost use Rattle.fn_sites.specs.Index.{Marks};

    ghost Value = { Marks };

    ghost view = { λ i. record { records = i.records; labels = i.labels.items } };

    ghost invariant = { λ i. IsNonDecreasing i.labels.items };
}

/// The records that are on code.
fn on_code(alloc: Global, relocs: &[Reloc]) -> Result<Vec<Reloc>, AllocError>
    ensures { IfOk result (λ found. found.items ≡ filter (λ (r : Reloc). r.code) relocs.now) }
{
    let mut found = Vec::new(alloc);
    for reloc in relocs {
        if reloc.code {
            found.push(*reloc)?;
        }
    }
    Ok(found)
}

/// One number for a function and an offset.
fn label_number(func: u32, off: u32) -> u64
    ensures { result ≡ number_of func off }
{
    u64::from(func) * 0x1_0000_0000 + u64::from(off)
}

/// The numbers of the labels.
fn label_numbers(alloc: Global, labels: &[Pair]) -> Result<Vec<u64>, AllocError>
    ensures { IfOk result (λ found. (f o : ℕ) → o < 2 ^ 32 → is_among_of found.items (number_of f o) ≡ is_label_at labels.now f o) }
{
    let mut found = Vec::new(alloc);
    for label in labels {
        found.push(label_number(label.func, label.off))?;
    }
    Ok(found)
}

fn rising(numbers: Vec<u64>) -> Result<Vec<u64>, AllocError>
    ensures rise { IfOk result (λ found. IsNonDecreasing found.items) }
    ensures same { IfOk result (λ found. (n : ℕ) → is_among_of found.items n ≡ is_among_of numbers.items n) }
{
    let mut numbers = numbers;
    numbers.sort()?;
    Ok(numbers)
}

impl SiteIndex {
    /// The index of these records and labels. The time is that of sorting them. Err is want of memory.
    pub fn new(
        alloc: Global,
        relocs: &Items<Reloc>,
        labels: &Items<Pair>,
    ) -> Result<SiteIndex, NoMemory>
        ensures { IfOk result (λ index. Tells index relocs.now labels.now) }
    {
        let records = RelocIndex::new(on_code(alloc, relocs.as_slice())?)?;
        let labels = rising(label_numbers(alloc, labels.as_slice())?)?;
        Ok(SiteIndex { records, labels })
    }

    /// The record on the word at an address.
    pub fn record(&self, address: u64) -> Option<Reloc>
        ensures { result ≡ record_at self.now.records address }
    {
        self.records.at(address)
    }

    /// Whether a label of the function stands at the offset.
    pub fn has_label(&self, func: u32, off: u32) -> bool
        ensures { result ≡ is_among_of self.now.labels (number_of func off) }
    {
        is_among(&self.labels, label_number(func, off))
    }
}
