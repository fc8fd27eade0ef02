// SPDX-License-Identifier: Apache-2.0
//! A sink in memory, with room for so many bytes, and with calls that fail by their number.
ghost use Rattle.std.specs.Prelude.{◌≡◌, ◌≤◌, ◌+◌, ◌-◌, ◌++◌, [], IfOk, IsTrue, ◌↔◌, take, length, vec_len, vec_capacity, Some, if◌then◌else◌};
ghost use Rattle.sh_base.specs.Faults.{HasCause};
ghost use Rattle.sh_base.specs.Written.{WriteLeaves};
ghost use Rattle.sh_base.specs.Tells.{taken_after};
ghost use Rattle.sh_base.specs.SinkValue.{WriteAnswers};

use crate::{Pieces, Sink, SinkFailed};
use sh_types::{Items, NoMemory};
use std::alloc::Global;
use std::marker::Model;

/// A sink in memory. It tells the bytes written.
#[derive(Drop)]
pub struct MemSink {
    bytes: Vec<u8>,
    room: u64,
    fails: Items<u64>,
    calls: u64,
    faults: u64,
    taken: Pieces,
}

impl Model for MemSink {
    ghost use Rattle.std.specs.Prelude.{◌≤◌, vec_capacity, vec_len};
    ghost use Rattle.sh_base.specs.SinkValue.{SinkValue};

    ghost Value = { SinkValue };

    ghost view = { λ s. record { written = s.bytes.items; faults = s.faults; calls = s.calls; fails = s.fails; room = s.room; taken = s.taken.items } };

    ghost invariant = { λ s. (vec_len s.bytes ≤ s.room) × (s.room ≤ vec_capacity s.bytes) };
}

impl MemSink {
    /// An empty sink with room for so many bytes. `fails` has the numbers of the writes that are to fail,
    /// counted from 0. The room is taken here.
    pub fn new(alloc: Global, room: u64, fails: Items<u64>) -> Result<MemSink, NoMemory>
        ensures { IfOk result (λ s. s ≡ record { written = []; faults = 0; calls = 0; fails = fails; room = room; taken = [] }) }
    {
        let bytes = Vec::with_capacity(alloc, room as usize)?;
        Ok(MemSink {
            bytes,
            room,
            fails,
            calls: 0,
            faults: 0,
            taken: Pieces::new(),
        })
    }

    /// The bytes written. It takes no memory.
    pub fn content(&self) -> &[u8]
        ensures { result.now ≡ self.now.written }
    {
        self.bytes.as_slice()
    }
}

/// Appends what fits, and says whether all did.
fn fill(bytes: &mut Vec<u8>, room: u64, piece: &[u8]) -> bool
    requires within { vec_len bytes.old ≤ room }
    requires capacity { room ≤ vec_capacity bytes.old }
    ensures within { vec_len bytes.new ≤ room }
    ensures capacity { room ≤ vec_capacity bytes.new }
    ensures all { IsTrue result ↔ (vec_len bytes.old + length piece.now ≤ room) }
    ensures some { bytes.new.items ≡ bytes.old.items ++ (if result then piece.now else take (room - vec_len bytes.old) piece.now) }
{
    let left = room as usize - bytes.len();
    if piece.len() <= left {
        bytes.extend_from_slice(piece).unwrap();
        true
    } else {
        bytes.extend_from_slice(&piece[..left]).unwrap();
        false
    }
}

impl Sink for MemSink {
    ghost written = { λ s. Some s.written };

    ghost taken = { λ s. s.taken };

    ghost faults = { λ s. s.faults };

    fn write(&mut self, piece: &[u8]) -> Result<(), SinkFailed>
        ensures written { WriteLeaves (Some self.old.written) (Some self.new.written) piece.now result }
        ensures taken { self.new.taken ≡ taken_after self.old.taken piece.now result }
        ensures cause { HasCause self.old.faults self.new.faults result }
        ensures exact { WriteAnswers self.old self.new piece.now result }
    {
        let number = self.calls;
        self.calls = self.calls.saturating_add(1);
        if self.fails.as_slice().contains(&number) {
            self.faults = self.faults.saturating_add(1);
            return Err(SinkFailed);
        }
        if fill(&mut self.bytes, self.room, piece) {
            self.taken.took(piece);
            Ok(())
        } else {
            self.faults = self.faults.saturating_add(1);
            Err(SinkFailed)
        }
    }
}
