// SPDX-License-Identifier: Apache-2.0
//! The first guest's file.
use crate::{HOME, Sample, file_of};
use std::alloc::{AllocError, Global};

/// `start` stores three bytes, calls `three` and makes the calls 64 and 93; `three` sets a2.
const CODE: [u32; 17] = [
    0xff01_0113,
    0x0680_0293,
    0x0051_0023,
    0x0690_0293,
    0x0051_00a3,
    0x00a0_0293,
    0x0051_0123,
    0x0200_00ef,
    0x0010_0513,
    0x0001_0593,
    0x0400_0893,
    0x0000_0073,
    0x0000_0513,
    0x05d0_0893,
    0x0000_0073,
    0x0030_0613,
    0x0000_8067,
];

/// The file of the first guest.
pub fn first_file(alloc: Global) -> Result<Vec<u8>, AllocError> {
    let sample = Sample {
        entry: HOME,
        functions: &[("start", 15), ("three", 2)],
        code: &CODE,
        data: b"",
    };
    file_of(alloc, &sample)
}
