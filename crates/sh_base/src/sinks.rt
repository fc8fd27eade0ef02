// SPDX-License-Identifier: Apache-2.0
//! What takes the bytes that the program writes.
ghost use Rattle.std.specs.Prelude.{◌≡◌, List, ℕ};
ghost use Rattle.std.specs.declared.option.Option.{Option};
ghost use Rattle.sh_base.specs.Faults.{HasCause};
ghost use Rattle.sh_base.specs.Written.{WriteLeaves};
ghost use Rattle.sh_base.specs.Tells.{taken_after};

/// A write failed. A front of its piece may have been written.
#[derive(Clone, Copy, Debug, PartialEq, Eq)]
pub struct SinkFailed;

/// Takes bytes, piece by piece. It means the bytes written, told or not, the pieces that were taken whole, and how
/// often a write has failed.
pub trait Sink {
    /// The bytes written, where they are told.
    ghost written: { Self → Option (List ℕ) };

    /// The pieces whose write answered Ok, the latest last.
    ghost taken: { Self → List (List ℕ) };

    /// How often a write has failed. The count never falls, and stands still at 2^64 - 1.
    ghost faults: { Self → ℕ };

    /// Appends the piece, or where it fails a front of it. It takes no memory.
    fn write(&mut self, piece: &[u8]) -> Result<(), SinkFailed>
        ensures written { WriteLeaves (written self.old) (written self.new) piece.now result }
        ensures taken { taken self.new ≡ taken_after (taken self.old) piece.now result }
        ensures cause { HasCause (faults self.old) (faults self.new) result };
}
