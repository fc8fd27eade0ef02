// SPDX-License-Identifier: Apache-2.0
//! The files of the system. They tell what their loads gave, and not what they hold.
ghost use Rattle.std.specs.Prelude.{◌≡◌, ◌+◌, [], IfOk, IfSome, take};
ghost use Rattle.sh_base.specs.Faults.{HasFileCause, FaultsAfter, call_of};
ghost use Rattle.sh_base.specs.Held.{untold, Loads, StoreLeaves};
ghost use Rattle.sh_base.specs.Tells.{answered_after};

use crate::mem_files::push_in_room;
use crate::real_sink::{TRIES, write_whole};
use crate::{Answers, FileCall, FileFault, FileWord, Files};
use sh_types::{Bytes, Name};
use std::alloc::{AllocError, Global};
use std::fs::{File, OpenFile, Permissions};
use std::io::{ErrorKind, Read, Write};
use std::marker::Model;
use std::{fs, rt};

/// The files of a runtime that offers file calls. Contracts see them as the list of the calls that failed and the
/// list of what the loads gave.
#[derive(Drop)]
pub struct RealFiles<'a, R: rt::Files> {
    rt: &'a R,
    alloc: Global,
    failed: Vec<FileCall>,
    answers: Answers,
}

impl<'a, R: rt::Files> Model for RealFiles<'a, R> {
    ghost use Rattle.sh_base.specs.FilesValue.{RealFilesValue, real_files_code};

    ghost Value = { RealFilesValue };

    ghost coded = { real_files_code };

    ghost view = { λ f. record { faults = f.failed.items; answered = f.answers.items } };
}

impl<'a, R: rt::Files> RealFiles<'a, R> {
    /// The files of this runtime, of whose calls none has failed yet. It takes no memory.
    pub fn new(rt: &'a R, alloc: Global) -> RealFiles<'a, R>
        ensures { result ≡ record { faults = []; answered = [] } }
    {
        RealFiles {
            rt,
            alloc,
            failed: Vec::new(alloc),
            answers: Answers::new(),
        }
    }
}

/// How many bytes a read asks for at most.
const CHUNK: usize = 16_384;

/// Reads up to `limit + 1` bytes, in as many turns as it takes.
fn read_front<S: Read>(alloc: Global, source: &mut S, limit: u64) -> Result<Bytes, FileFault>
    ensures { IfOk result (λ bytes. IfSome (S.remaining source.old) (λ all. bytes ≡ take (limit + 1) all)) }
{
    let mut bytes = Bytes::new(alloc);
    let mut chunk = [0u8; CHUNK];
    let mut tries = 0;
    for _ in 0..u64::MAX {
        let have = bytes.len() as u64;
        if have > limit {
            return Ok(bytes);
        }
        let left = limit - have;
        let want = if left < CHUNK as u64 {
            left as usize + 1
        } else {
            CHUNK
        };
        match source.read(&mut chunk[..want]) {
            Ok(0) => return Ok(bytes),
            Ok(count) => {
                bytes.extend_from_slice(&chunk[..count])?;
                tries = 0;
            }
            Err(error) => {
                if error.kind() != ErrorKind::Interrupted || tries >= TRIES {
                    return Err(FileFault::Failed);
                }
                tries += 1;
            }
        }
    }
    Err(FileFault::Failed)
}

/// Opens the file and reads its front.
fn load_front<R: rt::Files>(
    rt: &R,
    alloc: Global,
    name: &str,
    limit: u64,
) -> Result<Bytes, FileFault> {
    match fs::open(rt, name) {
        Ok(file) => {
            let mut file = file;
            read_front(alloc, &mut file, limit)
        }
        Err(_) => Err(FileFault::Failed),
    }
}

/// How many names are tried for a new file beside a target.
const NAMES: u8 = 100;

/// A name in the target's folder.
fn beside(alloc: Global, target: &str, number: u8) -> Result<String, AllocError> {
    match target.rsplit_once('/') {
        Some((folder, _)) => format!(in alloc; "{folder}/.shuffler-{number}"),
        None => format!(in alloc; ".shuffler-{number}"),
    }
}

/// Makes a new file in the target's folder, under the first name that is not taken.
fn new_beside<R: rt::Files>(
    rt: &R,
    alloc: Global,
    target: &str,
) -> Result<(R::File, String), FileFault> {
    for number in 0..NAMES {
        let path = beside(alloc, target, number)?;
        match File::create_new(rt, path.as_str()) {
            Ok(file) => return Ok((file, path)),
            Err(error) => {
                if error.kind() != ErrorKind::AlreadyExists {
                    return Err(FileFault::Failed);
                }
            }
        }
    }
    Err(FileFault::Failed)
}

/// Writes the bytes to the new file, which is to have these permissions, if any, and waits until the system has them.
fn fill<F: Write + OpenFile>(
    file: &mut F,
    bytes: &[u8],
    permissions: Option<Permissions>,
) -> Result<(), FileFault> {
    if write_whole(file, bytes).is_err() {
        return Err(FileFault::Failed);
    }
    if let Some(permissions) = permissions {
        if file.set_permissions(permissions).is_err() {
            return Err(FileFault::Failed);
        }
    }
    match file.sync_all() {
        Ok(()) => Ok(()),
        Err(_) => Err(FileFault::Failed),
    }
}

/// Puts a new file with these bytes in the target's place. Where that fails the target stands, and the new file is
/// removed.
fn replace<R: rt::Files>(
    rt: &R,
    alloc: Global,
    target: &str,
    bytes: &[u8],
    permissions: Option<Permissions>,
) -> Result<(), FileFault> {
    let (mut file, path) = new_beside(rt, alloc, target)?;
    let filled = fill(&mut file, bytes, permissions);
    drop(file);
    if filled.is_ok() && fs::rename(rt, path.as_str(), target).is_ok() {
        return Ok(());
    }
    let _ = fs::remove_file(rt, path.as_str());
    Err(FileFault::Failed)
}

/// Writes these bytes to what lies under the name, a device or a pipe.
fn write_in_place<R: rt::Files>(rt: &R, name: &str, bytes: &[u8]) -> Result<(), FileFault> {
    let Ok(mut file) = fs::create(rt, name) else {
        return Err(FileFault::Failed);
    };
    match write_whole(&mut file, bytes) {
        Ok(()) => Ok(()),
        Err(_) => Err(FileFault::Failed),
    }
}

/// Stores the bytes: a regular file is replaced at one stroke, and what is none is written in place.
fn store_whole<R: rt::Files>(
    rt: &R,
    alloc: Global,
    name: &str,
    bytes: &[u8],
) -> Result<(), FileFault> {
    match fs::symlink_metadata(rt, name) {
        Ok(found) => {
            if found.is_file() {
                replace(rt, alloc, name, bytes, Some(found.permissions()))
            } else {
                write_in_place(rt, name, bytes)
            }
        }
        Err(error) => {
            if error.kind() == ErrorKind::NotFound {
                replace(rt, alloc, name, bytes, None)
            } else {
                Err(FileFault::Failed)
            }
        }
    }
}

impl<'a, R: rt::Files> Files for RealFiles<'a, R> {
    ghost held = { λ _. untold };

    ghost faults = { λ f. f.faults };

    ghost answered = { λ f. f.answered };

    fn load(&mut self, name: &str, limit: u64) -> Result<Bytes, FileFault>
        ensures held { untold ≡ untold }
        ensures bytes { IfOk result (λ bytes. Loads untold name.now limit bytes) }
        ensures answered { self.new.answered ≡ answered_after self.old.answered name.now result }
        ensures cause { HasFileCause name.now FileWord.Load self.old.faults self.new.faults result }
        ensures exact { FaultsAfter (call_of name.now FileWord.Load) self.old.faults self.new.faults result }
    {
        let call = FileCall {
            name: Name::from_str(self.alloc, name)?,
            word: FileWord::Load,
        };
        self.failed.reserve(1)?;
        match load_front(self.rt, self.alloc, name, limit) {
            Ok(bytes) => {
                self.answers.gave(name.as_bytes(), bytes.as_slice());
                Ok(bytes)
            }
            Err(FileFault::NoMemory) => Err(FileFault::NoMemory),
            Err(FileFault::Failed) => {
                push_in_room(&mut self.failed, call);
                self.answers.failed(name.as_bytes());
                Err(FileFault::Failed)
            }
        }
    }

    fn store(&mut self, name: &str, bytes: &[u8]) -> Result<(), FileFault>
        ensures leaves { StoreLeaves untold untold name.now bytes.now result }
        ensures answered { self.new.answered ≡ self.old.answered }
        ensures cause { HasFileCause name.now FileWord.Store self.old.faults self.new.faults result }
        ensures exact { FaultsAfter (call_of name.now FileWord.Store) self.old.faults self.new.faults result }
    {
        let call = FileCall {
            name: Name::from_str(self.alloc, name)?,
            word: FileWord::Store,
        };
        self.failed.reserve(1)?;
        match store_whole(self.rt, self.alloc, name, bytes) {
            Ok(()) => Ok(()),
            Err(FileFault::NoMemory) => Err(FileFault::NoMemory),
            Err(FileFault::Failed) => {
                push_in_room(&mut self.failed, call);
                Err(FileFault::Failed)
            }
        }
    }
}
