// SPDX-License-Identifier: Apache-2.0
//! The assembler: a source becomes functions, words, data, symbols and the marks of what refers to what.
#![tactic(auto)]

mod assembling;
mod checking;
mod data;
mod laws;
mod marks;
mod passes;
mod words;
mod writing;

pub use asm_places::{
    Place, Scoped, Target, all_numbers, entry_twice_line, first_far, first_unknown, functions_of,
    is_in_range, is_open, last_place, misplaced_line, name_twice_line, push_data_labels,
    push_functions, push_inner_symbols, range_line,
};
pub use assembling::assemble;
pub use checking::{checked, entry_name, last_line};
pub use data::{data_of, text_of};
pub use laws::{marks_name_symbols, objects_are_whole, words_decode};
pub use marks::marks_of;
pub use passes::{first_pass, second_pass};
pub use words::{Sequence, instrs};
pub use writing::{Unwritten, push_words};
