// SPDX-License-Identifier: Apache-2.0
//! The return words of a memory, by the numbers of their words.
ghost use Rattle.std.specs.Prelude.{◌≡◌, ℕ, ◌<◌, ◌≤◌, ◌==◌, None, Some, IsSome, IsNone, IfSome, OnOk, OnErr, if◌then◌else◌};
ghost use Rattle.plain_memory.specs.Plain.{saved_at, unless_his};

use sh_types::{CodeRef, NoMemory};
use std::alloc::Global;
use std::collections::BTreeMap;
use std::marker::Model;

/// A return word: its hart, and where it leads.
#[derive(Clone, Copy, Debug, PartialEq, Eq)]
pub struct SavedReturn {
    pub hart: u32,
    pub to: CodeRef,
}

/// Return words by their numbers, of which none is below `lowest`.
#[derive(Debug, Drop)]
pub struct Returns {
    saved: BTreeMap<u64, SavedReturn>,
    lowest: u64,
}

impl Model for Returns {
    ghost use Rattle.std.specs.Prelude.{ℕ, ◌≤◌, IsSome, List};
    ghost use Rattle.plain_memory.specs.declared.returns.SavedReturn.{SavedReturn};

    ghost Value = { List (ℕ × SavedReturn) };

    ghost use Rattle.plain_memory.specs.Plain.{saved_at};

    ghost view = { λ r. r.saved.entries };

    ghost invariant = { λ r. (w : ℕ) → IsSome (saved_at r.saved.entries w) → r.lowest ≤ w };
}

impl Returns {
    /// No return word. It takes no memory.
    pub fn new(alloc: Global) -> Returns
        ensures { (w : ℕ) → saved_at result w ≡ None }
    {
        Returns {
            saved: BTreeMap::new(alloc),
            lowest: u64::MAX,
        }
    }

    /// The return word with a number.
    #[inline(always)]
    pub fn get(&self, word: u64) -> Option<SavedReturn>
        ensures { result ≡ saved_at self.now word }
    {
        if word < self.lowest {
            return None;
        }
        self.look_up(word)
    }

    /// The same, by the map.
    #[inline(never)]
    fn look_up(&self, word: u64) -> Option<SavedReturn>
        ensures { result ≡ saved_at self.now word }
    {
        self.saved.get(&word).copied()
    }

    /// The word with a number becomes a return word. Where memory is refused nothing changes.
    pub fn put(&mut self, word: u64, saved: SavedReturn) -> Result<(), NoMemory>
        ensures ok { OnOk result ((w : ℕ) → saved_at self.new w ≡ (if w == word then Some saved else saved_at self.old w)) }
        ensures err { OnErr result (self.new ≡ self.old) }
    {
        self.saved.insert(word, saved)?;
        self.lowest = self.lowest.min(word);
        Ok(())
    }

    /// The word with a number becomes no return word.
    pub fn take(&mut self, word: u64)
        ensures { (w : ℕ) → saved_at self.new w ≡ (if w == word then None else saved_at self.old w) }
    {
        self.saved.remove(&word);
        self.lowest = first_of(&self.saved);
    }

    /// The return words of a hart are none any more.
    pub fn drop_his(&mut self, hart: u32)
        ensures { (w : ℕ) → saved_at self.new w ≡ unless_his hart (saved_at self.old w) }
    {
        self.saved.retain(|_, saved| saved.hart != hart);
        self.lowest = first_of(&self.saved);
    }

    /// The number of the first return word from one on.
    pub fn first_from(&self, word: u64) -> Option<u64>
        ensures some { IfSome result (λ v. IsSome (saved_at self.now v)) }
        ensures from { IfSome result (λ v. word ≤ v) }
        ensures first { IfSome result (λ v. (w : ℕ) → word ≤ w → w < v → saved_at self.now w ≡ None) }
        ensures none { IsNone result → (w : ℕ) → word ≤ w → saved_at self.now w ≡ None }
    {
        match self.saved.range(word..).next() {
            Some((first, _)) => Some(*first),
            None => None,
        }
    }
}

/// The number of the first return word, or the last number.
fn first_of(saved: &BTreeMap<u64, SavedReturn>) -> u64
    ensures { (w : ℕ) → IsSome (saved_at saved.now.entries w) → result ≤ w }
{
    match saved.first_key_value() {
        Some((first, _)) => *first,
        None => u64::MAX,
    }
}
