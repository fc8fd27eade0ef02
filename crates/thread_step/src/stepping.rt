// SPDX-License-Identifier: Apache-2.0
//! One instruction, by its task.
ghost use Rattle.std.specs.Prelude.{◌≡◌, ◌<◌, ◌%◌, IfOk, IsTrue, None, OnErr, slice_index};
ghost use Rattle.std.specs.Bool.{OnFalse, OnTrue};
ghost use Rattle.rv_table.specs.Decoding.{decoded};
ghost use Rattle.sh_machines.specs.Kind.{kind_at};
ghost use Rattle.sh_machines.specs.Need.{answered};
ghost use Rattle.sh_machines.specs.Unmoved.{thread_does};
ghost use Rattle.sh_types.specs.Image.{sizes_of, word_at};
ghost use Rattle.thread_acts.specs.Done.{IsDone, meant};
ghost use Rattle.thread_acts.specs.declared.threads.Thread.{Thread};
ghost use Rattle.thread_step.specs.Doing.{Does, DoesAlone, Stops, is_quick};

use crate::answers::trapped;
use crate::code::Code;
use crate::doing::does;
use crate::quick::quick;
use plain_memory::Contents;
use sh_types::{NoMemory, Pair, Trap};
use thread_acts::{Did, Thread};

/// What comes of a pair that has no instruction: behind the last word of its function, or anywhere else.
#[cold]
fn nothing_at(code: &Code, at: Pair) -> Did
    requires { decoded (word_at code.now at) ≡ None }
    ensures { (thread : Thread) → DoesAlone thread thread (kind_at code.now at) result }
{
    if code.is_end(at) {
        trapped(Trap::FellOff)
    } else {
        trapped(Trap::Illegal)
    }
}

/// One instruction of a hart whose pair has no task in the lists: it is between words, or behind the last.
#[cold]
#[inline(never)]
fn unlisted<M: Contents>(code: &Code, thread: &mut Thread, memory: &mut M) -> Result<Did, NoMemory>
    ensures done { IfOk result (λ did. Does (M.regions memory.old) thread.old thread.new (M.contents memory.old) (M.contents memory.new) (kind_at code.now thread.old.at) did) }
    ensures regions { M.regions memory.new ≡ M.regions memory.old }
    ensures err { OnErr result ((thread.new ≡ thread.old) × (M.contents memory.new ≡ M.contents memory.old)) }
{
    let at = thread.at;
    match code.instr_at(at) {
        Some(instr) => {
            let task = code.task_of(at, instr);
            does(code, thread, &task, memory)
        }
        None => Ok(nothing_at(code, at)),
    }
}

/// One instruction of a hart: what the word at its pair does to the hart and to memory, and what comes of it. Where
/// memory is refused, which only a save asks for, nothing has changed.
#[inline(never)]
pub fn step<M: Contents>(code: &Code, thread: &mut Thread, memory: &mut M) -> Result<Did, NoMemory>
    ensures done { IfOk result (λ did. IsDone (answered (thread_does (M.regions memory.old) (meant thread.old) (kind_at code.now thread.old.at)) (M.contents memory.old)) thread.old thread.new (M.contents memory.old) (M.contents memory.new) did) }
    ensures regions { M.regions memory.new ≡ M.regions memory.old }
    ensures err { OnErr result ((thread.new ≡ thread.old) × (M.contents memory.new ≡ M.contents memory.old)) }
{
    match code.listed_at(thread.at) {
        Some(task) => does(code, thread, task, memory),
        None => unlisted(code, thread, memory),
    }
}

/// One instruction of a hart that stores nothing and goes on: true where the word at its pair is such a one and is done.
/// False of every other, and then nothing has changed: there is no word at the pair, its kind may write memory or ask for
/// something, or it traps or uses a return address as data.
#[inline(always)]
pub fn quick_step<M: Contents>(code: &Code, thread: &mut Thread, memory: &M) -> bool
    ensures went { OnTrue result (IsDone (answered (thread_does (M.regions memory.now) (meant thread.old) (kind_at code.now thread.old.at)) (M.contents memory.now)) thread.old thread.new (M.contents memory.now) (M.contents memory.now) (Did.Went None)) }
    ensures stays { OnFalse result (thread.new ≡ thread.old) }
    ensures stops { OnFalse result (thread.old.at.off % 4 ≡ 0 → thread.old.at.off < slice_index (sizes_of code.now) thread.old.at.func → IsTrue (is_quick (kind_at code.now thread.old.at)) → Stops (M.regions memory.now) thread.old (M.contents memory.now) (kind_at code.now thread.old.at)) }
{
    match code.listed_at(thread.at) {
        Some(task) => quick(code, thread, task, memory),
        None => false,
    }
}
