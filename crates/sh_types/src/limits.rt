// SPDX-License-Identifier: Apache-2.0
//! The numbers of this machine, as specs/Limits has them for contracts.

/// How many cells there are. A layout lies in one.
pub const CELL_COUNT: u32 = 256;

/// The bytes of a cell.
pub const CELL_SIZE: u64 = 0x10_0000;

/// Where the first cell begins. Memory ends there.
pub const FIRST_CELL: u64 = 0x4000_0000;

/// The words of a cell, and so of a copy.
pub const WORDS_IN_CELL: usize = 262_144;

/// How many cells a layout leaves alone: those of so many layouts before it.
pub const RECENT_CELLS: usize = 64;

/// How many functions an image has at most.
pub const MOST_FUNCTIONS: u64 = 16_384;

/// How many bytes its functions have at most.
pub const MOST_CODE: u64 = 524_288;

/// How many bytes its segments have in memory at most.
pub const MOST_MAPPED: u64 = 67_108_864;

/// Where an image ends at the latest.
pub const IMAGE_END: u64 = 0x3f00_0000;

/// How many harts are ever started, and so how many keys a layout has.
pub const MOST_HARTS: u32 = 64;

/// How many bytes sp is below its value on entry at most.
pub const MOST_DEPTH: u32 = 1_048_576;

/// Where the first stack begins.
pub const STACK_START: u64 = 0x3ff0_0000;

/// Where the first stack ends.
pub const STACK_END: u64 = 0x4000_0000;

/// The bytes of the first stack.
pub const STACK_SIZE: usize = 0x10_0000;

/// The number in sp at first.
pub const FIRST_SP: u64 = 0x3fff_f000;
