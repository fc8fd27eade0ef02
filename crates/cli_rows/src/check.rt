// SPDX-License-Identifier: Apache-2.0
//! What is due for a check of a file.
ghost use Rattle.std.specs.Prelude.{◌≡◌, IfOk};
ghost use Rattle.elf_rules.specs.Bindable.{mapped_by};
ghost use Rattle.elf_rules.specs.Elf.{segments_of};
ghost use Rattle.image_rules.specs.Framed.{framed_image};
ghost use Rattle.image_text.specs.Listing.{listing_of};
ghost use Rattle.cli_rows.specs.Dues.{text_due};
ghost use Rattle.guest_dues.specs.Loaded.{IsImageOf};
ghost use Rattle.cli_rows.specs.Rows.{check_due};

use crate::judging::{Judged, judge};
use crate::lines::text;
use guest_dues::Due;
use guest_image::mapped_bytes;
use image_text::listing;
use sh_types::{Image, NoMemory};
use std::alloc::Global;
use std::thread::Threads;

/// The text that lists the image of the file is due.
fn listed(alloc: Global, image: &Image, file: &[u8]) -> Result<Due, NoMemory>
    requires { IsImageOf file.now image.now }
    ensures { IfOk result (λ due. due ≡ text_due (listing_of (framed_image file.now) (mapped_by (segments_of file.now)))) }
{
    let mapped = mapped_bytes(alloc, file)?;
    Ok(text(listing(alloc, image, mapped)?))
}

/// What is due for a check of the file: the list of its image, or the line on a file that is refused. Err only where
/// memory is refused.
pub fn of_check<R: Threads + Sync>(rt: &R, alloc: Global, file: &[u8]) -> Result<Due, NoMemory>
    ensures { IfOk result (λ due. due ≡ check_due file.now) }
{
    match judge(rt, alloc, file)? {
        Judged::Accepted(image) => listed(alloc, &image, file),
        Judged::Refused(due) => Ok(due),
    }
}
