// SPDX-License-Identifier: Apache-2.0
//! Sinks over the system's writers, and over one that halts.
use sh_base::{RealSink, Sink, SinkFailed};
use std::io;
use std::io::{ErrorKind, Write};
use std::test::Fail;

/// Is interrupted at first, takes two bytes then, and none after.
#[derive(Drop)]
struct Halting {
    turn: u8,
}

impl Write for Halting {
    fn write(&mut self, piece: &[u8]) -> io::Result<usize> {
        self.turn = self.turn.saturating_add(1);
        match self.turn {
            1 => Err(io::Error::from(ErrorKind::Interrupted)),
            2 => Ok(piece.len().min(2)),
            _ => Ok(0),
        }
    }

    fn flush(&mut self) -> io::Result<()> {
        Ok(())
    }
}

#[test]
fn writers_of_the_system(rt: HostRuntime) -> Result<(), Fail> {
    let mut written = Vec::new(rt.alloc());
    let mut sink = RealSink::new(&mut written);
    assert_eq!(rt; sink.write(b"ab"), Ok(()));
    assert_eq!(rt; sink.write(b"c"), Ok(()));
    assert_eq!(rt; written.as_slice(), b"abc".as_slice());
    Ok(())
}

#[test]
fn a_writer_that_halts(rt: HostRuntime) {
    let mut sink = RealSink::new(Halting { turn: 0 });
    assert_eq!(rt;
        sink.write(b"ab"),
        Ok(()),
        "an interrupted write is tried again"
    );
    assert_eq!(rt; sink.write(b"c"), Err(SinkFailed), "no byte is taken");
    assert_eq!(rt; sink.write(b""), Ok(()));
}
