// SPDX-License-Identifier: Apache-2.0
//! Layouts, made from the words of a stream: the cell, the places of the functions in it, and the keys.
#![tactic(auto)]

mod cell;
mod draws;
mod laws;
mod make;
mod order;
mod spots;

pub use laws::{
    gaps_are_within_shares, keys_are_small, layouts_are_well_placed, orders_are_permutations,
    places_are_new, recent_cells_are_counted,
};
pub use make::{cell_at, make_layout};
