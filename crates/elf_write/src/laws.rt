// SPDX-License-Identifier: Apache-2.0
//! What the file of an object has.
ghost use Rattle.std.specs.List.{All};
ghost use Rattle.std.specs.Prelude.{◌≡◌, map, ◌<◌, ◌≤◌, ◌^◌, List, ℕ, None, length};
ghost use Rattle.sh_types.specs.declared.objects.Object.{Object};
ghost use Rattle.rv_asm.specs.Object.{object_of};
ghost use Rattle.rv_asm.specs.Passes.{fault_of};
ghost use Rattle.elf_rules.specs.declared.elf.Head.{Head};
ghost use Rattle.elf_rules.specs.Elf.{heads_of, name_at, section_names as section_names_of, symbols_of};
ghost use Rattle.elf_write.specs.Held.{HoldsAll, IsPlain, SaysAll};
ghost use Rattle.elf_write.specs.Parts.{parts_of, section_names};
ghost use Rattle.elf_write.specs.Writable.{IsWritable};
ghost use Rattle.elf_write.specs.Written.{elf_file, entry_home};

use rv_asm::objects_are_whole;

/// The object of a source that has no fault and at most 64 MiB can be written.
pub fn assembled_objects_are_writable()
    ensures { (text : List ℕ) → length text ≤ 67108864 → fault_of text ≡ None → IsWritable (object_of text) }
{
    objects_are_whole();
}

/// The file of an object has each part where its headers say, and ends with the section headers.
pub fn files_hold_their_parts()
    ensures { (object : Object) → IsWritable object → HoldsAll object (parts_of object) (elf_file object) }
{}

/// Reading the headers of the file of an object gives where its parts are, where the entry's address is a number of
/// eight bytes.
pub fn files_say_where()
    ensures { (object : Object) → IsWritable object → entry_home object < 2 ^ 64 → SaysAll object (parts_of object) (elf_file object) }
{}

/// Reading the symbols of the file of an object, with their names, gives those of the object.
pub fn files_name_their_symbols()
    ensures { (object : Object) → IsWritable object → entry_home object < 2 ^ 64 → All IsPlain object.symbols → symbols_of (elf_file object) ≡ object.symbols }
{}

/// Reading the names of the sections of the file of an object gives `.text`, `.data` and so on, by their numbers.
pub fn files_name_their_sections()
    ensures { (object : Object) → IsWritable object → entry_home object < 2 ^ 64 → map (λ (h : Head). name_at (section_names_of (elf_file object)) h.name) (heads_of (elf_file object)) ≡ section_names }
{}
