// SPDX-License-Identifier: Apache-2.0
//! Files by name.
ghost use Rattle.std.specs.Prelude.{◌≡◌, List, ℕ, IfOk};
ghost use Rattle.std.specs.declared.option.Option.{Option};
ghost use Rattle.sh_base.specs.Faults.{HasFileCause};
ghost use Rattle.sh_base.specs.Held.{FileMap, Loads, StoreLeaves};
ghost use Rattle.sh_base.specs.Told.{FileAnswer};
ghost use Rattle.sh_base.specs.Tells.{answered_after};
ghost use Rattle.sh_base.specs.declared.files.FileCall.{FileCall};
ghost use Rattle.sh_base.specs.declared.files.FileFault.TheVariants.{NoMemory};

use sh_types::{Bytes, Name};
use std::alloc::AllocError;
use thiserror::Error;

/// Why a file call gave nothing: the system refused it, or memory was refused.
#[derive(Clone, Copy, Debug, PartialEq, Eq, Error)]
pub enum FileFault {
    #[error("a file call failed")]
    Failed,
    #[error("out of memory")]
    NoMemory,
}

impl From<AllocError> for FileFault {
    ghost from_gives = { λ _ e. e ≡ NoMemory };

    fn from(_: AllocError) -> Self {
        FileFault::NoMemory
    }
}

/// What a call did with its file.
#[derive(Clone, Copy, Debug, PartialEq, Eq)]
pub enum FileWord {
    Load,
    Store,
}

/// A call that failed, by the file's name and by what it did.
#[derive(Debug, Drop)]
pub struct FileCall {
    pub name: Name,
    pub word: FileWord,
}

/// Files by name. They mean the contents by name, told or not, the calls that failed, and what the loads gave.
pub trait Files {
    /// The contents by name, where they are told.
    ghost held: { Self → Option FileMap };

    /// The calls that failed, the latest last. The list only grows.
    ghost faults: { Self → List FileCall };

    /// What each load gave, the latest last: the bytes, or none where it failed.
    ghost answered: { Self → List FileAnswer };

    /// The first `limit + 1` bytes of the file, or all where it has fewer. `Failed` comes only where the
    /// faults of this name's loads grew. What is held stands.
    fn load(&mut self, name: &str, limit: u64) -> Result<Bytes, FileFault>
        ensures held { held self.new ≡ held self.old }
        ensures bytes { IfOk result (λ bytes. Loads (held self.old) name.now limit bytes) }
        ensures answered { answered self.new ≡ answered_after (answered self.old) name.now result }
        ensures cause { HasFileCause name.now FileWord.Load (faults self.old) (faults self.new) result };

    /// Replaces the content of the name whole and leaves the others. `Failed` comes only where the faults of
    /// this name's stores grew; the content of the name is then not known, and the others stand.
    fn store(&mut self, name: &str, bytes: &[u8]) -> Result<(), FileFault>
        ensures leaves { StoreLeaves (held self.old) (held self.new) name.now bytes.now result }
        ensures answered { answered self.new ≡ answered self.old }
        ensures cause { HasFileCause name.now FileWord.Store (faults self.old) (faults self.new) result };
}
