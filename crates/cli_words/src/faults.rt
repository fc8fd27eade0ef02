// SPDX-License-Identifier: Apache-2.0
//! Why words are no command.

/// Why words are no command: memory was refused, or they have no meaning.
#[derive(Clone, Copy, Debug, PartialEq, Eq)]
pub enum WordFault {
    NoMemory,
    Usage,
}
