// SPDX-License-Identifier: Apache-2.0
//! Tests of files and sinks of the system.
#![tactic(auto)]

#[cfg(test)]
mod files;
#[cfg(test)]
mod writers;
