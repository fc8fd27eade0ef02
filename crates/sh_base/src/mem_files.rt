// SPDX-License-Identifier: Apache-2.0
//! Files in memory, with calls that fail by their number.
ghost use Rattle.std.specs.Prelude.{◌≡◌, ◌≢◌, ◌+◌, ◌<◌, ◌∷◌, ◌++◌, [], ℕ, length, take, IfOk, OnOk, OnErr, MatchOption, Some, option_copied, slice_get, vec_len, vec_capacity};
ghost use Rattle.std.specs.FinMap as map;
ghost use Rattle.sh_base.specs.Held.{as_map, Loads, StoreLeaves};
ghost use Rattle.sh_base.specs.Faults.{HasFileCause};
ghost use Rattle.sh_base.specs.Tells.{answered_after};
ghost use Rattle.sh_base.specs.FilesValue.{LoadAnswers, StoreAnswers};
ghost use Rattle.sh_base.specs.Distinct.{AreDistinct};

use crate::{Answers, FileCall, FileFault, FileWord, Files};
use sh_types::{Bytes, Items, Name};
use std::alloc::{AllocError, Global};
use std::marker::Model;

/// Files in memory. They tell what they hold.
#[derive(Drop)]
pub struct MemFiles {
    alloc: Global,
    names: Vec<Name>,
    contents: Vec<Bytes>,
    fails: Items<u64>,
    calls: u64,
    failed: Vec<FileCall>,
    answers: Answers,
}

impl Model for MemFiles {
    ghost use Rattle.std.specs.Prelude.{◌≡◌, length};
    ghost use Rattle.sh_base.specs.Held.{as_map};
    ghost use Rattle.sh_base.specs.FilesValue.{FilesValue, files_code};

    ghost Value = { FilesValue };

    ghost coded = { files_code };

    ghost view = { λ f. record { held = as_map f.names.items f.contents.items; faults = f.failed.items; calls = f.calls; fails = f.fails; answered = f.answers.items } };

    ghost invariant = { λ f. length f.names.items ≡ length f.contents.items };
}

impl MemFiles {
    /// Files with these contents, in the order of the names. `fails` has the numbers of the calls that are to
    /// fail, counted from 0 over all calls. It takes no memory.
    pub fn new(
        alloc: Global,
        names: Items<Name>,
        contents: Items<Bytes>,
        fails: Items<u64>,
    ) -> MemFiles
        requires distinct { AreDistinct names }
        requires as_many { length names ≡ length contents }
        ensures { result ≡ record { held = as_map names contents; faults = []; calls = 0; fails = fails; answered = [] } }
    {
        MemFiles {
            alloc,
            names: names.into_vec(),
            contents: contents.into_vec(),
            fails,
            calls: 0,
            failed: Vec::new(alloc),
            answers: Answers::new(),
        }
    }

    /// The content of the name; None exactly where the name is not held. It takes no memory.
    pub fn content(&self, name: &str) -> Option<&[u8]>
        ensures { option_copied result ≡ map.get self.now.held name.now }
    {
        lookup(self.names.as_slice(), self.contents.as_slice(), name)
    }
}

/// The first place of the name.
fn index_of(names: &[Name], name: &str) -> Option<usize>
    ensures { MatchOption result ((k : ℕ) → slice_get names.now k ≢ Some name.now)
        (λ at. (slice_get names.now at ≡ Some name.now) × ((k : ℕ) → k < at → slice_get names.now k ≢ Some name.now)) }
{
    for (at, held) in names.iter().enumerate() {
        if held.is(name) {
            return Some(at);
        }
    }
    None
}

/// The content of the name.
fn lookup<'a>(names: &[Name], contents: &'a [Bytes], name: &str) -> Option<&'a [u8]>
    requires { length names.now ≡ length contents.now }
    ensures { option_copied result ≡ map.get (as_map names.now contents.now) name.now }
{
    match index_of(names, name) {
        Some(at) => Some(contents[at].as_slice()),
        None => None,
    }
}

/// The first `limit + 1` bytes.
fn front(alloc: Global, content: &[u8], limit: u64) -> Result<Bytes, AllocError>
    ensures { IfOk result (λ bytes. bytes ≡ take (limit + 1) content.now) }
{
    if content.len() <= limit as usize {
        Bytes::from_slice(alloc, content)
    } else {
        Bytes::from_slice(alloc, &content[..limit as usize + 1])
    }
}

/// Pushes an item, for which there is room.
pub(crate) fn push_in_room<T: Drop>(list: &mut Vec<T>, item: T)
    requires { vec_len list.old < vec_capacity list.old }
    ensures { list.new.items ≡ list.old.items ++ item ∷ [] }
{
    list.push(item).unwrap();
}

/// Puts these bytes in the place of the name's, or adds the name.
fn put(
    names: &mut Vec<Name>,
    contents: &mut Vec<Bytes>,
    name: Name,
    bytes: Bytes,
) -> Result<(), AllocError>
    requires { length names.old.items ≡ length contents.old.items }
    ensures as_many { length names.new.items ≡ length contents.new.items }
    ensures ok { OnOk result (as_map names.new.items contents.new.items ≡ map.insert (as_map names.old.items contents.old.items) name bytes) }
    ensures err { OnErr result ((names.new.items ≡ names.old.items) × (contents.new.items ≡ contents.old.items)) }
{
    match index_of(names.as_slice(), name.as_str()) {
        Some(at) => {
            contents[at] = bytes;
            Ok(())
        }
        None => {
            names.reserve(1)?;
            contents.reserve(1)?;
            push_in_room(names, name);
            push_in_room(contents, bytes);
            Ok(())
        }
    }
}

impl Files for MemFiles {
    ghost held = { λ f. Some f.held };

    ghost faults = { λ f. f.faults };

    ghost answered = { λ f. f.answered };

    fn load(&mut self, name: &str, limit: u64) -> Result<Bytes, FileFault>
        ensures held { Some self.new.held ≡ Some self.old.held }
        ensures bytes { IfOk result (λ bytes. Loads (Some self.old.held) name.now limit bytes) }
        ensures answered { self.new.answered ≡ answered_after self.old.answered name.now result }
        ensures cause { HasFileCause name.now FileWord.Load self.old.faults self.new.faults result }
        ensures exact { LoadAnswers self.old self.new name.now result }
    {
        let number = self.calls;
        self.calls = self.calls.saturating_add(1);
        let call = FileCall {
            name: Name::from_str(self.alloc, name)?,
            word: FileWord::Load,
        };
        self.failed.reserve(1)?;
        if self.fails.as_slice().contains(&number) {
            push_in_room(&mut self.failed, call);
            self.answers.failed(name.as_bytes());
            return Err(FileFault::Failed);
        }
        let content = lookup(self.names.as_slice(), self.contents.as_slice(), name);
        match content {
            Some(content) => {
                let bytes = front(self.alloc, content, limit)?;
                self.answers.gave(name.as_bytes(), bytes.as_slice());
                Ok(bytes)
            }
            None => {
                push_in_room(&mut self.failed, call);
                self.answers.failed(name.as_bytes());
                Err(FileFault::Failed)
            }
        }
    }

    fn store(&mut self, name: &str, bytes: &[u8]) -> Result<(), FileFault>
        ensures leaves { StoreLeaves (Some self.old.held) (Some self.new.held) name.now bytes.now result }
        ensures answered { self.new.answered ≡ self.old.answered }
        ensures cause { HasFileCause name.now FileWord.Store self.old.faults self.new.faults result }
        ensures exact { StoreAnswers self.old self.new name.now bytes.now result }
    {
        let number = self.calls;
        self.calls = self.calls.saturating_add(1);
        let call = FileCall {
            name: Name::from_str(self.alloc, name)?,
            word: FileWord::Store,
        };
        self.failed.reserve(1)?;
        if self.fails.as_slice().contains(&number) {
            push_in_room(&mut self.failed, call);
            return Err(FileFault::Failed);
        }
        let kept = Name::from_str(self.alloc, name)?;
        let content = Bytes::from_slice(self.alloc, bytes)?;
        put(&mut self.names, &mut self.contents, kept, content)?;
        Ok(())
    }
}
