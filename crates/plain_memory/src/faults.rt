// SPDX-License-Identifier: Apache-2.0
//! The faults of a save, from those of what it does.
ghost use Rattle.std.specs.Prelude.{◌≡◌};
ghost use Rattle.plain_memory.specs.declared.contents.SaveFault.TheVariants.{Access, NoMemory as refused};

use crate::contents::{AccessFault, SaveFault};
use sh_types::NoMemory;

impl From<AccessFault> for SaveFault {
    ghost from_gives = { λ fault e. e ≡ Access fault };

    fn from(fault: AccessFault) -> Self {
        SaveFault::Access { fault }
    }
}

impl From<NoMemory> for SaveFault {
    ghost from_gives = { λ _ e. e ≡ refused };

    fn from(_: NoMemory) -> Self {
        SaveFault::NoMemory
    }
}
