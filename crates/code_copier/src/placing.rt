// SPDX-License-Identifier: Apache-2.0
//! The word that stands at a pair of a layout.
ghost use Rattle.std.specs.Prelude.{◌≡◌, ◌<◌, length};
ghost use Rattle.sh_machines.specs.Copy.{jal_word};
ghost use Rattle.sh_types.specs.Place.{WellPlaced, IsPair, pair, place_of};
ghost use Rattle.code_copier.specs.Template.{Leads, word_by};

use crate::words::CopiedWord;
use rv_encode::encode_jal;
use sh_types::{Layout, Pair, place};

/// A JAL from a pair to the start of a function: each distance within a cell fits.
#[tactic(auto, using(crate::proofs::Reaching::start_pair, crate::proofs::Reaching::reaches))]
fn jump(layout: &Layout, from: Pair, function: u32, rd: u8) -> u32
    requires placed { WellPlaced layout.now }
    requires from { IsPair layout.now.sizes from }
    requires function { function < length layout.now.sizes }
    requires rd { rd < 32 }
    ensures { result ≡ jal_word rd (place_of layout.now from) (place_of layout.now (pair function 0)) }
{
    let here = place(layout, from);
    let there = place(
        layout,
        Pair {
            func: function,
            off: 0,
        },
    );
    encode_jal(rd, there.cast_signed() - here.cast_signed()).unwrap()
}

/// The word that stands at a pair. It takes no memory.
pub fn placed_word(layout: &Layout, at: Pair, copied: CopiedWord) -> u32
    requires placed { WellPlaced layout.now }
    requires at { IsPair layout.now.sizes at }
    requires leads { Leads (length layout.now.sizes) copied }
    ensures { result ≡ word_by layout.now at copied }
{
    match copied {
        CopiedWord::Fixed(word) => word,
        CopiedWord::Jump { rd, func } => jump(layout, at, func, rd),
    }
}
