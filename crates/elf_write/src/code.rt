// SPDX-License-Identifier: Apache-2.0
//! The words of the code.
ghost use Rattle.std.specs.Prelude.{◌≡◌, ◌++◌, OnOk};
ghost use Rattle.std.specs.List.{flat_map};
ghost use Rattle.elf_write.specs.Fields.{little};
ghost use Rattle.elf_write.specs.Written.{code};

use crate::fields::put_word;
use sh_types::Items;
use std::alloc::AllocError;

/// Appends words, the lowest byte of each first.
fn put_words(file: &mut Vec<u8>, words: &[u32]) -> Result<(), AllocError>
    ensures { OnOk result (file.new.items ≡ file.old.items ++ flat_map (little 4) words.now) }
{
    for word in words {
        put_word(file, *word)?;
    }
    Ok(())
}

/// Appends the words of the functions.
#[tactic(auto, unfolding(crate::specs::Written::code))]
pub fn put_code(file: &mut Vec<u8>, words: &[Items<u32>]) -> Result<(), AllocError>
    ensures { OnOk result (file.new.items ≡ file.old.items ++ code words.now) }
{
    for function in words {
        put_words(file, function.as_slice())?;
    }
    Ok(())
}
