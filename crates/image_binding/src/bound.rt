// SPDX-License-Identifier: Apache-2.0
//! A file becomes a bound image.
ghost use Rattle.std.specs.Prelude.{◌≡◌};
ghost use Rattle.elf_rules.specs.declared.refusals.LoadFault.TheVariants as load;
ghost use Rattle.elf_rules.specs.Bindable.{Passes, binding_refusal};
ghost use Rattle.image_binding.specs.Binds.{IsBoundFile};

use crate::bindable::bindable;
use crate::image::bound_of;
use bound_law::bound_images_are_coded;
use elf_rules::LoadFault;
use fn_sites::SiteIndex;
use sh_types::{Image, Items, NoMemory, Reloc};
use std::alloc::Global;

/// The bound image of a file: its functions by rising addresses, their words and the classes of these, the number of the
/// function at the entry, and the readable bytes outside of code with the first stack behind them. By the relocation
/// records, words and bytes have tokens in place of addresses of code; the rows are the functions whose address a record
/// takes as data, and the labels the places inside functions that a record in data names. The lists of frames and literals
/// are empty. `relocs` are the records that are used, in file order, and `index` finds these and the labels.
#[derive(Drop)]
pub struct BoundFile {
    pub image: Image,
    pub relocs: Items<Reloc>,
    pub index: SiteIndex,
}

fn no_memory(_: NoMemory) -> LoadFault
    ensures { result ≡ load.NoMemory }
{
    LoadFault::NoMemory
}

/// Binds the executable with these bytes. A file that cannot be bound is answered by its first refusal, in this order:
/// - `Elf`: the rules on the header and the tables, then those on the symbols and the names, then those on the records;
/// - `Limit` with `Mapped`: the PT_LOAD segments have more than 67,108,864 bytes in memory;
/// - `Split`: a function breaks a rule, or the entry lies inside one;
/// - `Limit` with `Functions`: more than 16,384 functions;
/// - `Limit` with `Code`: the functions have more than 524,288 bytes;
/// - `Mismatch`: the bytes at the place of a record, the first in file order, are not those that it asks for.
///
/// `NoMemory` says nothing of the file. The image takes the memory of its segments, and the lists beside it a few times the
/// file's size. The time is that of these bytes, of sorting the tables and the records, and of a few binary searches for
/// each record and word.
pub fn bind_file(alloc: Global, bytes: &[u8]) -> Result<BoundFile, LoadFault>
    ensures { Passes result (binding_refusal bytes.now) (IsBoundFile bytes.now) }
{
    let file = bindable(alloc, bytes)?;
    bound_images_are_coded();
    bound_of(alloc, bytes, file).map_err(no_memory)
}
