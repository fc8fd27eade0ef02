// SPDX-License-Identifier: Apache-2.0
//! Makes the real files, sinks and seed, and calls the top call.
#![tactic(auto)]

use sh_base::{NoGate, RealFiles, RealSink, Sink};
use shuf_cli::shuffler_main;
use std::alloc::AllocError;
use std::env;
use std::io::ErrorKind;
use std::process::ExitCode;
use std::random::RandomSource;

/// The status where the system gives no random bytes, so that there is no seed.
const NO_SEED: u8 = 11;

const NO_MEMORY: u8 = 14;

/// The words behind the program's name; none where they are not text.
fn words_of(rt: &HostRuntime) -> Result<Vec<String>, AllocError> {
    match env::args(rt) {
        Ok(args) => args.skip(1).collect(rt.alloc()),
        Err(error) if error.kind() == ErrorKind::OutOfMemory => Err(AllocError),
        Err(_) => Ok(Vec::new(rt.alloc())),
    }
}

fn main(rt: HostRuntime) -> ExitCode {
    let mut report = RealSink::new(rt.stderr());
    let mut seed = [0u8; 32];
    if rt.fill_bytes(&mut seed).is_err() {
        let _ = report.write(b"shuffler: no random bytes\n");
        return ExitCode::from(NO_SEED);
    }
    let Ok(words) = words_of(&rt) else {
        return ExitCode::from(NO_MEMORY);
    };
    let mut files = RealFiles::new(&rt, rt.alloc());
    let mut out = RealSink::new(rt.stdout());
    let done = shuffler_main(
        &rt,
        rt.alloc(),
        &words,
        &mut files,
        &mut out,
        &mut report,
        &seed,
        &NoGate,
    );
    ExitCode::from(done.status)
}
