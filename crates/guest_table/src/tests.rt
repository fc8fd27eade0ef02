// SPDX-License-Identifier: Apache-2.0
//! The first guest has two functions, of which the first stores `hi` and a line feed on its stack, calls the second,
//! and makes the calls 64 and 93: 17 instructions. The places are those of the first layout under the seed of zeros.
use crate::calls::run_first;
use sh_types::FetchLog;
use shuf_machine::{MachineNo, No};
use std::test::Fail;

/// The address of the first word of the first function, and of its environment call.
const ENTRY: u64 = 0x476b_eab4;

const CALL: u64 = ENTRY + 44;

#[test]
fn the_words_that_are_asked_for(rt: HostRuntime) -> Result<(), Fail> {
    let mut log = FetchLog::new(rt.alloc(), 20)?;
    let ran = run_first(&rt, rt.alloc(), 0, &mut log);
    assert!(rt; matches!(ran, Ok(13)), "up to the call");
    let asked = log.list();
    assert_eq!(rt; asked.len(), 14);
    assert!(rt; asked.iter().all(|word| word.layout == 1), "of layout 1");
    assert_eq!(rt; asked.first().map(|word| word.address), Some(ENTRY));
    assert_eq!(rt; asked.last().map(|word| word.address), Some(CALL));
    Ok(())
}

#[test]
fn a_hart_that_was_never_started(rt: HostRuntime) -> Result<(), Fail> {
    let mut log = FetchLog::new(rt.alloc(), 20)?;
    match run_first(&rt, rt.alloc(), 1, &mut log) {
        Err(MachineNo::NotEnabled { why }) => assert_eq!(rt; why, No::NoHart { hart: 1 }),
        _ => assert!(rt; false, "there is no such hart"),
    }
    Ok(())
}
