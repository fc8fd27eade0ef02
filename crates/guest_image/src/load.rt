// SPDX-License-Identifier: Apache-2.0
//! A file becomes an image.
ghost use Rattle.std.specs.Prelude.{All, ◌≡◌, ◌*◌, ◌<◌, ◌≤◌, ℕ, [], IfOk, length, slice_index, slice_index_or};
ghost use Rattle.elf_rules.specs.Bindable.{IsBindable, Passes};
ghost use Rattle.image_binding.specs.Binds.{IsBoundFile};
ghost use Rattle.image_rules.specs.Framed.{framed_image, refusal_of};
ghost use Rattle.load_law.specs.Readable.{IsFull};
ghost use Rattle.sh_machines.specs.Copy.{IsCopyable};
ghost use Rattle.sh_machines.specs.Fine.{IsFine};
ghost use Rattle.sh_types.specs.declared.code.Region.{Region};
ghost use Rattle.sh_types.specs.Image.{sizes_of};
ghost use Rattle.sh_types.specs.Sized.{IsSized};
ghost use Rattle.guest_image.specs.Literals.{IsFramable, IsFramedFile};

use crate::frames::all_frames;
use crate::literals::all_literals;
use bound_law::bound_images_are_coded;
use elf_rules::LoadFault;
use image_binding::{BoundFile, bind_file};
use loaded_law::{
    bodies_can_be_walked, framed_images_are_copied, framed_images_are_fine, framed_images_are_whole,
};
use sh_types::{FrameTable, Image, Items};
use std::alloc::Global;
use std::thread::Threads;

/// The bound image with its frames and literals.
fn with_frames(image: Image, frames: Items<FrameTable>, literals: Items<u64>) -> Image
    ensures { result ≡ record image { frames = frames; literals = literals } }
{
    Image {
        frames,
        literals,
        ..image
    }
}

/// The image of a file that is bound, or its first function that is refused.
fn framed_file<R: Threads + Sync>(
    rt: &R,
    alloc: Global,
    bytes: &[u8],
    bound: BoundFile,
) -> Result<Image, LoadFault>
    requires bindable { IsBindable bytes.now }
    requires bound { IsBoundFile bytes.now bound }
    requires framable { IsFramable bound }
    ensures { Passes result (refusal_of bytes.now) (IsFramedFile bytes.now) }
{
    match all_frames(rt, alloc, &bound) {
        Err(fault) => Err(fault),
        Ok(frames) => {
            let literals = all_literals(alloc, &bound, frames.as_slice())?;
            Ok(with_frames(bound.image, frames, literals))
        }
    }
}

/// The image of the executable with these bytes: its functions by rising addresses, their words, the classes of these and
/// the rows of frames, the number of the function at the entry, and the readable bytes outside of code with the first stack
/// behind them, which rise, share no byte and have a byte for each address. By the relocation records, words and bytes have tokens in place of addresses of code; the rows are the
/// functions whose address a record takes as data, and the labels the places inside functions that a record in data names.
/// The literals are the numbers that the reached AUIPC words give, in the order of the functions. The laws of the machines
/// hold of the image, and its copies can be made.
///
/// A file that is not accepted is answered by its first refusal: those of `bind_file` first, in their order, and then
/// - `Refused`: the first function by address that a relocation record refuses, or that is not in the frame grammar, with
///   the offset in bytes and the rule.
///
/// `NoMemory` says nothing of the file. Functions are walked side by side on the threads of `rt`; the answer does not hang
/// on their order. A walk looks at each word of its function once.
pub fn load_image<R: Threads + Sync>(
    rt: &R,
    alloc: Global,
    bytes: &[u8],
) -> Result<Image, LoadFault>
    ensures loads { Passes result (refusal_of bytes.now) (λ image. image ≡ framed_image bytes.now) }
    ensures fine { IfOk result IsFine }
    ensures sized { IfOk result (λ image. IsSized (sizes_of image)) }
    ensures copyable { IfOk result IsCopyable }
    ensures words { IfOk result (λ image. (f : ℕ) → 4 * length (slice_index_or image.words f []) ≡ slice_index (sizes_of image) f) }
    ensures apart { IfOk result (λ image. (j k : ℕ) (d : Region) → j < k → k < length image.regions → (slice_index_or image.regions j d).end ≤ (slice_index_or image.regions k d).start) }
    ensures full { IfOk result (λ image. All IsFull image.regions) }
{
    framed_images_are_whole();
    framed_images_are_fine();
    framed_images_are_copied();
    bound_images_are_coded();
    bodies_can_be_walked();
    match bind_file(alloc, bytes) {
        Err(fault) => Err(fault),
        Ok(bound) => framed_file(rt, alloc, bytes, bound),
    }
}
