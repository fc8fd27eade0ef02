// SPDX-License-Identifier: Apache-2.0
//! What instructions change, beside memory.
use sh_types::{Bytes, End};
use thread_acts::Thread;

/// All that instructions change but memory: `read` bytes of the input were read, and `count` instructions executed.
#[derive(Drop)]
pub struct State {
    pub threads: Vec<Thread>,
    pub input: Bytes,
    pub read: usize,
    pub output: Vec<u8>,
    pub count: u64,
    pub end: Option<End>,
}
