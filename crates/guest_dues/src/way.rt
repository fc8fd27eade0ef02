// SPDX-License-Identifier: Apache-2.0
//! By which machine a guest is run.
ghost use Rattle.std.specs.Prelude.{◌≡◌, IfOk};
ghost use Rattle.cli_words.specs.Ranges.{IsInRange};
ghost use Rattle.guest_dues.specs.Loaded.{IsImageOf};
ghost use Rattle.guest_dues.specs.Guest.{guest_due};

use crate::Due;
use crate::plain::of_plain;
use crate::run::of_run;
use cli_words::Opts;
use sh_types::{Bytes, Image, NoMemory};
use std::alloc::Global;

/// By which machine a guest is run: from copies that move, with this seed for their layouts where the words give none,
/// or as it was linked.
#[derive(Clone, Copy, Debug)]
pub enum Way {
    Moved { seed: [u8; 32] },
    Plain,
}

/// What is due for a run of the image of the file. Err only where memory is refused.
pub fn of_guest(
    alloc: Global,
    way: Way,
    image: Image,
    file: Bytes,
    input: Bytes,
    opts: &Opts,
) -> Result<Due, NoMemory>
    requires image { IsImageOf file image }
    requires range { IsInRange opts.now }
    ensures { IfOk result (λ due. due ≡ guest_due way opts.now file input) }
{
    match way {
        Way::Moved { seed } => of_run(alloc, image, file, input, opts, &seed),
        Way::Plain => of_plain(alloc, image, input, opts),
    }
}
