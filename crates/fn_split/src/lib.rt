// SPDX-License-Identifier: Apache-2.0
//! Functions from symbols, sections and the entry. The rules are those of `functions_of` and `split_refusal` in the
//! definitions of elf_rules.
#![tactic(auto)]

mod functions;
mod joining;
mod ranges;
mod refusal;
mod starts;

pub use functions::split;
