// SPDX-License-Identifier: Apache-2.0
//! The bound image of a file, or its first refusal before frames. What can be bound stands in the definition
//! `binding_refusal` of elf_rules, and what the image is in `bound_image` of image_rules. The rules of the file are tested
//! by `elf_read`, `elf_symbols` and `rv_relocs`, those on functions by `fn_split`; here they are put in their order, with
//! the limits between them and the records' fields behind them. The words of functions and the readable bytes are taken
//! from the file and bound by `ptr_table`, and classed by `fn_sites`.
//!
//! A call of a function of `load_law` or `bound_law` does nothing: its clause is a fact that the proof of the caller
//! rests on.
#![tactic(auto)]

mod agreeing;
mod bindable;
mod binding;
mod bound;
mod classes;
mod image;
mod laying;
mod limits;
mod locating;
mod memory;
mod order;
mod regions;
mod words;

pub use bound::{BoundFile, bind_file};
pub use memory::mapped_bytes;
