// SPDX-License-Identifier: Apache-2.0
//! Tests of what only a call of the library shows: the words that a run asks for, and what is handed out where the output
//! fails. What guests come to is said beside their sources.
#![tactic(auto)]

#[cfg(test)]
mod calls;
#[cfg(test)]
mod failing;
#[cfg(test)]
mod outputs;
#[cfg(test)]
mod tests;
