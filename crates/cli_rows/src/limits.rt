// SPDX-License-Identifier: Apache-2.0
//! The limits of the program.

/// The most bytes of a file.
pub const FILE_LIMIT: u64 = 16_777_216;
