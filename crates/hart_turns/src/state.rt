// SPDX-License-Identifier: Apache-2.0
//! The code that harts run, and what instructions change.
use guest_mem::GuestMem;
use hart_unwinder::Slots;
use layout_epochs::Epochs;
use layout_index::Placed;
use sh_types::{Bytes, CodeCopy, End, Hart, Image};

/// A layout with its copy.
#[derive(Drop)]
pub struct Prepared {
    pub layout: Placed,
    pub copy: CodeCopy,
}

/// The code that harts run, as it stands while they run: the image, the input, the seed of the layouts, the newest
/// layout, the one before it while that is live, and which was erased last. No instruction changes any of it.
#[derive(Drop)]
pub struct LiveCode<'a> {
    pub image: &'a Image,
    pub input: &'a Bytes,
    pub seed: &'a [u8; 32],
    pub epochs: &'a Epochs,
    pub newest: &'a Prepared,
    pub older: &'a Option<Prepared>,
    pub wiped: Option<u64>,
}

/// All that instructions change. `read` bytes of the input were read. `slots` has room for return words.
#[derive(Drop)]
pub struct State {
    pub harts: Vec<Hart>,
    pub memory: GuestMem,
    pub read: usize,
    pub output: Vec<u8>,
    pub count: u64,
    pub end: Option<End>,
    pub slots: Slots,
}
