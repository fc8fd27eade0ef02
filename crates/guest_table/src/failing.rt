// SPDX-License-Identifier: Apache-2.0
//! Calls of the top call under the seed of zeros, and what comes of them. These functions have no contract, so that
//! their callers do not carry that of the top call.
use sh_base::{MemFiles, MemSink};
use sh_types::{Bytes, End, Items, Name};
use shuf_cli::{Done, serial_command};
use std::alloc::{AllocError, Global};
use std::thread::Threads;

/// The file `a.elf`.
fn files_of(alloc: Global, file: &[u8]) -> Result<MemFiles, AllocError> {
    let mut names = Items::new(alloc);
    names.push(Name::from_str(alloc, "a.elf")?)?;
    let mut contents = Items::new(alloc);
    contents.push(Bytes::from_slice(alloc, file)?)?;
    Ok(MemFiles::new(alloc, names, contents, Items::new(alloc)))
}

/// A sink that fails at its first write, or at none.
fn sink_of(alloc: Global, fails: bool) -> Result<MemSink, AllocError> {
    let mut numbers = Items::new(alloc);
    if fails {
        numbers.push(0)?;
    }
    MemSink::new(alloc, 4096, numbers).map_err(|_| AllocError)
}

fn words_of(alloc: Global) -> Result<Vec<String>, AllocError> {
    let mut all = Vec::new(alloc);
    for word in ["run", "a.elf", "--serial"] {
        all.push(String::from_str(alloc, word)?)?;
    }
    Ok(all)
}

/// What an answer says; its machine is dropped where this is made, and nowhere else.
#[derive(Clone, Copy)]
pub struct Answer {
    pub status: u8,
    pub end: Option<End>,
    pub has_machine: bool,
}

fn answer_of(done: Done) -> Answer {
    Answer {
        status: done.status,
        end: done.end,
        has_machine: done.machine.is_some(),
    }
}

/// What came of a call: the answer, and what the sinks hold.
#[derive(Drop)]
pub struct Told {
    pub answer: Answer,
    pub out: Bytes,
    pub report: Bytes,
}

fn told_with(
    alloc: Global,
    answer: Answer,
    out: &MemSink,
    report: &MemSink,
) -> Result<Told, AllocError> {
    let out = Bytes::from_slice(alloc, out.content())?;
    let report = Bytes::from_slice(alloc, report.content())?;
    Ok(Told {
        answer,
        out,
        report,
    })
}

/// The top call. It says nothing of its own, so that its callers stay small.
fn top<R: Threads + Sync>(
    rt: &R,
    alloc: Global,
    words: &[String],
    files: &mut MemFiles,
    out: &mut MemSink,
    report: &mut MemSink,
) -> Answer {
    answer_of(serial_command(rt, alloc, words, files, out, report, &[0; 32]))
}

/// Runs the file over an output that fails.
pub fn run_without_output<R: Threads + Sync>(
    rt: &R,
    alloc: Global,
    file: &[u8],
) -> Result<Told, AllocError> {
    let words = words_of(alloc)?;
    let mut files = files_of(alloc, file)?;
    let mut out = sink_of(alloc, true)?;
    let mut report = sink_of(alloc, false)?;
    let answer = top(rt, alloc, &words, &mut files, &mut out, &mut report);
    told_with(alloc, answer, &out, &report)
}
