// SPDX-License-Identifier: Apache-2.0
//! A sink over any writer of the system. It tells what it took, and not what the writer did with it.
ghost use Rattle.std.specs.Prelude.{◌≡◌, [], None, OnOk};
ghost use Rattle.std.specs.Io.KnownBytes.{Appends};
ghost use Rattle.sh_base.specs.Faults.{HasCause, CountAfter};
ghost use Rattle.sh_base.specs.Tells.{taken_after};
ghost use Rattle.sh_base.specs.Written.{WriteLeaves};

use crate::{Pieces, Sink, SinkFailed};
use std::io::{ErrorKind, Write};
use std::marker::Model;

/// A sink over a writer. Contracts see it as the count of its failures and the pieces that it took.
#[derive(Drop)]
pub struct RealSink<W: Write> {
    inner: W,
    faults: u64,
    taken: Pieces,
}

impl<W: Write> Model for RealSink<W> {
    ghost use Rattle.sh_base.specs.SinkValue.{RealSinkValue};

    ghost Value = { RealSinkValue };

    ghost view = { λ s. record { faults = s.faults; taken = s.taken.items } };
}

impl<W: Write> RealSink<W> {
    /// A sink over this writer, which has taken nothing and has not failed yet.
    pub fn new(inner: W) -> RealSink<W>
        ensures { result ≡ record { faults = 0; taken = [] } }
    {
        RealSink {
            inner,
            faults: 0,
            taken: Pieces::new(),
        }
    }
}

/// How often a call that was interrupted before any byte is tried again.
pub(crate) const TRIES: u32 = 100;

/// Writes all of the piece, in as many turns as it takes, and flushes.
pub(crate) fn write_whole<W: Write>(inner: &mut W, piece: &[u8]) -> Result<(), SinkFailed>
    ensures { OnOk result (Appends (W.contents inner.old) (W.contents inner.new) piece.now) }
{
    let mut rest = piece;
    let mut tries = 0;
    for _ in 0..u64::MAX {
        if rest.is_empty() {
            return match inner.flush() {
                Ok(()) => Ok(()),
                Err(_) => Err(SinkFailed),
            };
        }
        match inner.write(rest) {
            Ok(0) => return Err(SinkFailed),
            Ok(count) => {
                rest = &rest[count..];
                tries = 0;
            }
            Err(error) => {
                if error.kind() != ErrorKind::Interrupted || tries >= TRIES {
                    return Err(SinkFailed);
                }
                tries += 1;
            }
        }
    }
    Err(SinkFailed)
}

impl<W: Write> Sink for RealSink<W> {
    ghost written = { λ _. None };

    ghost taken = { λ s. s.taken };

    ghost faults = { λ s. s.faults };

    fn write(&mut self, piece: &[u8]) -> Result<(), SinkFailed>
        ensures written { WriteLeaves None None piece.now result }
        ensures taken { self.new.taken ≡ taken_after self.old.taken piece.now result }
        ensures cause { HasCause self.old.faults self.new.faults result }
        ensures exact { CountAfter self.old.faults self.new.faults result }
    {
        match write_whole(&mut self.inner, piece) {
            Ok(()) => {
                self.taken.took(piece);
                Ok(())
            }
            Err(failed) => {
                self.faults = self.faults.saturating_add(1);
                Err(failed)
            }
        }
    }
}
