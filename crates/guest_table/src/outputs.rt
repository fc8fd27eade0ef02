// SPDX-License-Identifier: Apache-2.0
//! A run of the first guest, which writes `hi` and a line feed and ends with code 0, over an output that fails.
use crate::failing::run_without_output;
use sample_files::first_file;
use sh_types::End;
use std::test::Fail;

/// The run is made and its end and machine are handed out, and no report is written.
#[test]
fn an_output_that_fails(rt: HostRuntime) -> Result<(), Fail> {
    let file = first_file(rt.alloc())?;
    let told = run_without_output(&rt, rt.alloc(), &file)?;
    assert_eq!(rt; told.answer.status, 13);
    assert_eq!(rt; told.answer.end, Some(End::Exit { code: 0 }));
    assert!(rt; told.answer.has_machine, "the machine");
    assert_eq!(rt; told.out.as_slice(), b"".as_slice());
    assert_eq!(rt; told.report.as_slice(), b"".as_slice());
    Ok(())
}
