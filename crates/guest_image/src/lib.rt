// SPDX-License-Identifier: Apache-2.0
//! The image of an accepted file, or its first refusal. What is accepted stands in the definition `refusal_of` of
//! image_rules, and what the image is in `framed_image`. The file is bound by `image_binding`; here each function is walked
//! by `frame_tables`, and the literals are found.
//!
//! A call of a function of `bound_law` or `loaded_law` does nothing: its clause is a fact that the proof of the caller
//! rests on.
#![tactic(auto)]

mod frames;
mod literals;
mod load;
mod memory;
mod records;
mod threads;

pub use load::load_image;
pub use memory::mapped_bytes;
