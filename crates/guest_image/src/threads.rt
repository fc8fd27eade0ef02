// SPDX-License-Identifier: Apache-2.0
//! Work on numbers, side by side.
ghost use Rattle.std.specs.Prelude.{⊤, ℕ, List, IfOk};
ghost use Rattle.std.specs.List.{AllZip};

use rayon::prelude::*;
use std::alloc::{AllocError, Global};
use std::thread::Threads;

/// What `f` gives at each of some numbers, in their order, from as many threads as there are processors.
pub fn at_each<
    R: Threads + Sync,
    P: ParallelIterator<Item = usize>,
    X: Send + Drop,
    F: Fn(usize) -> X + Copy + Send + Sync,
>(rt: &R, alloc: Global, numbers: P, f: F) -> Result<Vec<X>, AllocError>
    requires { P.each numbers (λ i. F.pre f i × ((x : X) → F.post f i x → ⊤)) }
    ensures { IfOk result (λ found. (all : List ℕ) × P.gives numbers all × AllZip (F.post f) all found.items) }
{
    numbers.map(f).collect(rt, alloc)
}
