// SPDX-License-Identifier: Apache-2.0
//! Writes the ELF-64 file of an assembled object (System V gABI, "Object Files").
#![tactic(auto)]

mod code;
mod fields;
mod headers;
mod laws;
mod parts;
mod records;
mod sections;
mod strings;
mod symbols;
mod write;

pub use laws::{
    assembled_objects_are_writable, files_hold_their_parts, files_name_their_sections,
    files_name_their_symbols, files_say_where,
};
pub use write::write_elf;
