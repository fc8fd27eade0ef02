// SPDX-License-Identifier: Apache-2.0
//! Tests of the parts of the machine: a copy, and the pages of a guest's memory.
#![tactic(auto)]

#[cfg(test)]
mod copies;
#[cfg(test)]
mod pages;
