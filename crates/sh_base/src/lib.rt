// SPDX-License-Identifier: Apache-2.0
//! What the program meets outside: files, sinks and gates as traits, in memory and over the system.
#![tactic(auto)]

mod files;
mod gates;
mod mem_files;
mod mem_sink;
mod real_files;
mod real_sink;
mod sinks;
mod told;

pub use files::{FileCall, FileFault, FileWord, Files};
pub use gates::{Gate, NoGate, Point};
pub use mem_files::MemFiles;
pub use mem_sink::MemSink;
pub use real_files::RealFiles;
pub use real_sink::RealSink;
pub use sinks::{Sink, SinkFailed};
pub use told::{Answers, Pieces};
