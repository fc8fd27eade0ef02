// SPDX-License-Identifier: Apache-2.0
//! Where the jumps and the branches of a function lead to (RISC-V Unprivileged ISA, "Control Transfer Instructions").
ghost use Rattle.std.specs.Prelude.{◌≡◌, ◌+◌, ◌*◌, ◌<◌, ◌^◌, ℕ, IfOk, length};
ghost use Rattle.std.specs.List.Sorted.{IsNonDecreasing};
ghost use Rattle.rv_table.specs.Decoding.{decoded};
ghost use Rattle.sh_machines.specs.Constants.{any_leads};
ghost use Rattle.fn_sites.specs.Index.{is_among};
ghost use Rattle.fn_sites.specs.Sorts.{sort_of as sort_by};
ghost use Rattle.fn_sites.specs.Targets.{sorted_target, target_of as target_by, targets_from};

use crate::sorts::{Sort, plus_imm, sort_of};
use rv_decode::decode;
use rv_table::Instr;
use std::alloc::{AllocError, Global};

fn instr_target(address: u64, instr: &Instr) -> Option<u64>
    ensures { result ≡ sorted_target (sort_by instr.now.op) address instr.now }
{
    match sort_of(instr.op) {
        Sort::Jal => {
            if instr.rd == 0 {
                Some(plus_imm(address, instr.imm))
            } else {
                None
            }
        }
        Sort::Branch => Some(plus_imm(address, instr.imm)),
        _ => None,
    }
}

/// Where the word at an address leads to, if it is a jump or a branch.
fn target_of(address: u64, word: u32) -> Option<u64>
    ensures { result ≡ target_by address (decoded word) }
{
    match decode(word) {
        None => None,
        Some(instr) => instr_target(address, &instr),
    }
}

/// Where the words from an address on lead to.
fn all_targets(alloc: Global, home: u64, words: &[u32]) -> Result<Vec<u64>, AllocError>
    requires { home + 4 * length words.now < 2 ^ 64 }
    ensures { IfOk result (λ found. found.items ≡ targets_from home words.now) }
{
    let mut found = Vec::new(alloc);
    let mut address = home;
    for word in words {
        if let Some(target) = target_of(address, *word) {
            found.push(target)?;
        }
        address += 4;
    }
    Ok(found)
}

/// The same, rising.
pub fn targets(alloc: Global, home: u64, words: &[u32]) -> Result<Vec<u64>, AllocError>
    requires { home + 4 * length words.now < 2 ^ 64 }
    ensures rise { IfOk result (λ found. IsNonDecreasing found.items) }
    ensures targets { IfOk result (λ found. (a : ℕ) → is_among found.items a ≡ any_leads a home words.now) }
{
    let mut found = all_targets(alloc, home, words)?;
    found.sort()?;
    Ok(found)
}
