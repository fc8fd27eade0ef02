// SPDX-License-Identifier: Apache-2.0
//! Erasing a copy.
#![tactic(auto)]

ghost use Rattle.std.specs.Prelude.{◌≡◌, length, replicate};

use sh_types::CodeCopy;

/// Each word of the copy becomes 0; its number, its start and how many words it has stay. It takes no memory.
pub fn erase(copy: &mut CodeCopy)
    ensures { copy.new ≡ record copy.old { words = replicate (length copy.old.words) 0 } }
{
    copy.words.fill(0);
}
