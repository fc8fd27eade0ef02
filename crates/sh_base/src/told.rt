// SPDX-License-Identifier: Apache-2.0
//! What was answered so far, for clauses alone: it takes no memory, and its methods do nothing when they run.
ghost use Rattle.std.specs.Prelude.{◌≡◌, ℕ, List, [], ◌∷◌, ◌++◌};
ghost use Rattle.std.specs.Borrow.{ftrue};
ghost use Rattle.sh_base.specs.Told.{FileAnswer, answers_coded, pieces_coded};

use std::marker::{Model, PhantomData};

/// What loads gave, by their names, the latest last.
#[derive(Drop)]
pub struct Answers {
    of: PhantomData<u8>,
    pub ghost items: { List FileAnswer } by { answers_coded },
}

impl Model for Answers {
    ghost also_owns = { λ _. ftrue };
}

impl Answers {
    ghost use Rattle.sh_base.specs.Tells.{gave, failed};

    pub(crate) fn new() -> Answers
        ensures { result.items ≡ [] }
    {
        Answers { of: PhantomData }
    }

    /// A load of the name gave these bytes.
    pub(crate) fn gave(&mut self, _name: &[u8], _bytes: &[u8])
        ensures { self.new.items ≡ self.old.items ++ gave _name.now _bytes.now ∷ [] }
    {}

    /// A load of the name failed.
    pub(crate) fn failed(&mut self, _name: &[u8])
        ensures { self.new.items ≡ self.old.items ++ failed _name.now ∷ [] }
    {}
}

/// The pieces that a sink took whole, the latest last.
#[derive(Drop)]
pub struct Pieces {
    of: PhantomData<u8>,
    pub ghost items: { List (List ℕ) } by { pieces_coded },
}

impl Model for Pieces {
    ghost also_owns = { λ _. ftrue };
}

impl Pieces {
    pub(crate) fn new() -> Pieces
        ensures { result.items ≡ [] }
    {
        Pieces { of: PhantomData }
    }

    /// The sink took the piece.
    pub(crate) fn took(&mut self, _piece: &[u8])
        ensures { self.new.items ≡ self.old.items ++ _piece.now ∷ [] }
    {}
}
