// SPDX-License-Identifier: Apache-2.0
//! Where a test can hold a thread.

/// A place in the work of a thread: a turn was run ahead and its read guard is still held; a turn was
/// committed and no guard is held; the next copy was made and no lock is held.
#[derive(Clone, Copy, Debug, PartialEq, Eq)]
pub enum Point {
    Ahead,
    Committed,
    Building,
}

/// It promises nothing, and waits only where its type has leave to.
pub trait Gate {
    /// The thread `who` has come to this point: a worker by its number, the builder of layouts as 0.
    fn at(&self, point: Point, who: u32);
}

/// Does nothing at any point.
#[derive(Clone, Copy, Debug, PartialEq, Eq)]
pub struct NoGate;

impl Gate for NoGate {
    fn at(&self, _point: Point, _who: u32) {}
}
