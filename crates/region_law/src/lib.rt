// SPDX-License-Identifier: Apache-2.0
//! What can be read in the bound images of files, as clauses of functions that do nothing.
#![tactic(auto)]

ghost use Rattle.std.specs.Prelude.{◌≡◌, ◌+◌, [], ◌∷◌, ◌<◌, ◌≤◌, ℕ, List, None, All, length, slice_index_or};
ghost use Rattle.sh_types.specs.declared.code.Region.{Region};
ghost use Rattle.elf_rules.specs.ElfRules.{first_failing, reloc_rules, table_rules};
ghost use Rattle.image_rules.specs.Binding.{literal_of};
ghost use Rattle.image_rules.specs.Bound.{bound_image};
ghost use Rattle.load_law.specs.Readable.{IsFull, read_at};
ghost use Rattle.region_law.specs.BoundReadable.{bound_readable_at};
ghost use Rattle.region_law.specs.LiteralExample.{auipc_word, high_of_work, two_functions};
ghost use Rattle.sh_machines.specs.Tokens.{token_of};

use load_law::{
    record_bytes_lie_in_files, regions_are_apart, regions_are_full, regions_read_as_segments,
};

/// The regions of the bound image of a file whose tables hold rise and share no byte.
pub fn bound_regions_are_apart()
    ensures { (bytes : List ℕ) → first_failing table_rules bytes ≡ None → (j k : ℕ) (d : Region) → j < k → k < length (bound_image bytes).regions → (slice_index_or (bound_image bytes).regions j d).end ≤ (slice_index_or (bound_image bytes).regions k d).start }
{
    regions_are_apart();
}

/// Each region of the bound image of a file whose tables hold has addresses, and a byte for each.
pub fn bound_regions_are_full()
    ensures { (bytes : List ℕ) → first_failing table_rules bytes ≡ None → All IsFull (bound_image bytes).regions }
{
    regions_are_full();
}

/// What the regions of the bound image read at an address, where the tables of the file and its records hold: what the
/// file has there, with the byte of the token that takes the address, if one does. None takes a byte of the first stack.
pub fn bound_regions_read_as_bound()
    ensures { (bytes : List ℕ) → first_failing table_rules bytes ≡ None → first_failing reloc_rules bytes ≡ None → (address : ℕ) → read_at (bound_image bytes).regions address ≡ bound_readable_at bytes address }
{
    regions_are_full();
    regions_read_as_segments();
    record_bytes_lie_in_files();
}

/// An example of a literal: the AUIPC of `la a0, work` gives the token of `work` less the 60 bytes from the one to the
/// other, which its ADDI adds.
pub fn a_literal_comes_out()
    ensures literal { literal_of two_functions (high_of_work ∷ []) 0x10000 auipc_word ≡ 0x6fffffd4 }
    ensures token { 0x6fffffd4 + 60 ≡ token_of 1 }
{}
