// SPDX-License-Identifier: Apache-2.0
//! Whether the relocation records of a file agree with the bytes at their places.
ghost use Rattle.std.specs.Prelude.{◌≡◌, ⊤, All, None};
ghost use Rattle.load_law.specs.Placed.{HasBytes};
ghost use Rattle.elf_rules.specs.Bindable.{Passes, filled_in_order, first_mismatch, mismatch, mismatch_of, number_under};
ghost use Rattle.elf_rules.specs.declared.refusals.LoadFault.TheVariants as load;
ghost use Rattle.elf_rules.specs.ElfRules.{IsReadFrom, first_failing, reloc_rules};
ghost use Rattle.elf_rules.specs.Relocs.{disagreement, relocs_of};
ghost use Rattle.image_binding.specs.Order.{SegmentsApart};
ghost use Rattle.rv_relocs.specs.Checks.{HasPartners};

use crate::locating::mapped_place;
use crate::order::filled_in_order;
use elf_read::{u32_at, u64_at};
use elf_rules::kinds::width_of;
use elf_rules::{Disagrees, Elf, LoadFault, Segment};
use load_law::{record_bytes_lie_in_files, segments_are_apart};
use reloc_index::RelocIndex;
use rv_relocs::{check_with, partners};
use sh_types::{Items, Reloc};
use std::alloc::Global;

/// The number of the bytes that a record takes at its place, by the segments with memory in order.
#[tactic(auto, unfolding(elf_rules::specs::Bindable::number_under))]
fn number_under(bytes: &[u8], segments: &[Segment], reloc: &Reloc) -> u64
    requires apart { SegmentsApart segments.now }
    requires segments { segments.now ≡ filled_in_order bytes.now }
    requires inside { HasBytes bytes.now reloc.now }
    ensures { result ≡ number_under bytes.now segments.now reloc.now }
{
    let width = width_of(reloc.kind);
    if width == 0 {
        return 0;
    }
    let place = mapped_place(segments, reloc.place) as usize;
    if width == 4 {
        return u64::from(u32_at(bytes, place));
    }
    u64_at(bytes, place)
}

fn mismatched(reloc: &Reloc, found: Disagrees) -> LoadFault
    ensures { result ≡ load.Mismatch reloc.now.place reloc.now.kind found.found found.expected }
{
    LoadFault::Mismatch {
        place: reloc.place,
        kind: reloc.kind,
        found: found.found,
        expected: found.expected,
    }
}

/// Refuses a record that disagrees with the bytes at its place.
fn agrees(
    bytes: &[u8],
    segments: &[Segment],
    partners: &RelocIndex,
    all: &Items<Reloc>,
    reloc: &Reloc,
) -> Result<(), LoadFault>
    requires apart { SegmentsApart segments.now }
    requires segments { segments.now ≡ filled_in_order bytes.now }
    requires inside { HasBytes bytes.now reloc.now }
    requires partners { HasPartners partners.now all.now }
    ensures { Passes result (mismatch reloc.now (disagreement all.now reloc.now (number_under bytes.now segments.now reloc.now))) (λ _. ⊤) }
{
    let number = number_under(bytes, segments, reloc);
    match check_with(reloc, partners, all, number) {
        Ok(()) => Ok(()),
        Err(found) => Err(mismatched(reloc, found)),
    }
}

/// Refuses the first record that disagrees.
fn all_agree(
    bytes: &[u8],
    segments: &[Segment],
    partners: &RelocIndex,
    all: &Items<Reloc>,
) -> Result<(), LoadFault>
    requires apart { SegmentsApart segments.now }
    requires segments { segments.now ≡ filled_in_order bytes.now }
    requires inside { All (HasBytes bytes.now) all.now }
    requires partners { HasPartners partners.now all.now }
    ensures { Passes result (first_mismatch bytes.now segments.now all.now all.now) (λ _. ⊤) }
{
    for reloc in all.as_slice() {
        agrees(bytes, segments, partners, all, reloc)?;
    }
    Ok(())
}

/// Refuses the first record of a file that disagrees with the bytes at its place. The time is that of sorting segments
/// and records, and of a few binary searches for each record.
#[tactic(auto, unfolding(elf_rules::specs::Bindable::mismatch_of))]
pub fn agreeing(
    alloc: Global,
    bytes: &[u8],
    elf: &Elf,
    relocs: &Items<Reloc>,
) -> Result<(), LoadFault>
    requires read { IsReadFrom elf.now bytes.now }
    requires relocs { relocs.now ≡ relocs_of bytes.now }
    requires recorded { first_failing reloc_rules bytes.now ≡ None }
    ensures { Passes result (mismatch_of bytes.now) (λ _. ⊤) }
{
    segments_are_apart();
    record_bytes_lie_in_files();
    let segments = filled_in_order(alloc, elf.segments.as_slice())?;
    let partners = partners(alloc, relocs)?;
    all_agree(bytes, &segments, &partners, relocs)
}
