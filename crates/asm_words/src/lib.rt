// SPDX-License-Identifier: Apache-2.0
//! The words of an assembler's source: what its characters, numbers, strings, registers, names and mnemonics mean.
#![tactic(auto)]

mod characters;
mod faults;
mod mnemonics;
mod numbers;
mod operands;
mod registers;
mod shapes;
mod strings;

pub use characters::{cut, first_word, has_foreign, is_name, trimmed};
pub use faults::Unread;
pub use mnemonics::shape_named;
pub use numbers::number;
pub use operands::{
    based, indexed, is_nothing, name, register, register_and_name, register_and_number,
    register_first,
};
pub use shapes::{Naming, Plain, Shape};
pub use strings::string;
