// SPDX-License-Identifier: Apache-2.0
//! What is due.

use sh_types::{Bytes, End, Name};
use shuf_machine::Machine;

/// A store that is due: these bytes under the name.
#[derive(Debug, Drop)]
pub struct FileStore {
    pub name: Name,
    pub bytes: Bytes,
}

/// What is due: at most one store, to each sink one piece or nothing at all, and the answer where all is taken.
#[derive(Debug, Drop)]
pub struct Due {
    pub store: Option<FileStore>,
    pub out: Option<Bytes>,
    pub report: Option<Bytes>,
    pub status: u8,
    pub end: Option<End>,
    pub machine: Option<Machine>,
}
