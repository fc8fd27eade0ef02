// SPDX-License-Identifier: Apache-2.0
//! The symbols of ELF-64 files, with their names (System V gABI, "Symbol Table" and "String Table").
#![tactic(auto)]

mod names;
mod read;
mod rules;
mod strings;
mod table;

pub use read::symbols;
