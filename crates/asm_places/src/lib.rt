// SPDX-License-Identifier: Apache-2.0
//! Where the statements of a source stand, what their names stand for, and the first lines that break a rule by these;
//! and by these the functions and the symbols of a source.
#![tactic(auto)]

mod distances;
mod functions;
mod known;
mod names;
mod places;
mod ranges;
mod symbols;
mod targets;

pub use distances::{address, data_start, distance, find, first_far, target_of};
pub use functions::functions_of;
pub use known::{all_functions, contains, first_unknown};
pub use names::{entry_twice_line, name_twice_line};
pub use places::{
    Place, alignment, is_open, is_small, misplaced_line, natural, padding, range_line,
};
pub use ranges::is_in_range;
pub use symbols::{
    Scoped, all_numbers, find_number, push_data_labels, push_functions, push_inner_symbols,
};
pub use targets::{Target, all_targets, last_place, next_place, start};
