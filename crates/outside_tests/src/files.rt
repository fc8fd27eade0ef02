// SPDX-License-Identifier: Apache-2.0
//! The files of the system.
use sh_base::{FileFault, Files, RealFiles};
use std::test::Fail;

#[test]
fn files_of_the_system(rt: HostRuntime) -> Result<(), Fail> {
    let mut files = RealFiles::new(&rt, rt.alloc());
    files.store("made", b"longer content")?;
    files.store("made", b"content")?;
    for (limit, want) in [(2, "con"), (7, "content"), (99, "content")] {
        let bytes = files.load("made", limit)?;
        assert_eq!(rt; bytes.as_slice(), want.as_bytes());
    }
    for name in ["missing", "."] {
        let fault = files.load(name, 2).err();
        assert_eq!(rt; fault, Some(FileFault::Failed), "{name}");
    }
    let fault = files.store(".", b"x").err();
    assert_eq!(rt; fault, Some(FileFault::Failed), "a directory");
    Ok(())
}
