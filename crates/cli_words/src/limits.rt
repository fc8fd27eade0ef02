// SPDX-License-Identifier: Apache-2.0
//! The limits of the options, and what holds where the words give none.

/// Instructions between publications.
pub const LEAST_PERIOD: u64 = 1;

pub const MOST_PERIOD: u64 = 1_000_000_000;

pub const DEFAULT_PERIOD: u64 = 100_000;

/// Instructions in a turn at most.
pub const LEAST_QUANTUM: u64 = 1;

pub const MOST_QUANTUM: u64 = 1_000_000;

pub const DEFAULT_QUANTUM: u32 = 1_000;

/// Instructions in all at most.
pub const LEAST_STEPS: u64 = 0;

pub const MOST_STEPS: u64 = 1_000_000_000_000;

pub const DEFAULT_STEPS: u64 = 100_000_000;

pub const DEFAULT_WORKERS: u32 = 4;

/// Numbers of generated guests.
pub const LEAST_GUEST: u64 = 1;

pub const MOST_GUEST: u64 = 1_000;

/// Bytes of a seed.
pub const SEED_SIZE: usize = 32;
