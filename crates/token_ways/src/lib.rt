// SPDX-License-Identifier: Apache-2.0
//! Where an indirect call or jump leads, by the number that it computes: to the start of a function whose address is
//! taken, to a label of its own function, or nowhere.
#![tactic(auto)]

ghost use Rattle.std.specs.Prelude.{◌≡◌};
ghost use Rattle.sh_machines.specs.Tokens as tokens;
ghost use Rattle.token_lookup.specs.Rising.{Rises};
ghost use Rattle.token_ways.specs.Labels.{RisesByFunc};

use rv_operands::plus_imm;
use sh_types::Pair;
use token_lookup::{label_at, row_at};

/// The number that an indirect call or jump goes by: a register and an immediate, with bit 0 cleared (RISC-V Unprivileged
/// ISA, RV32I, "Unconditional Jumps").
pub fn jump_number(address: u64, imm: i64) -> u64
    ensures { result ≡ tokens.jump_number address imm }
{
    plus_imm(address, imm) / 2 * 2
}

/// Where an indirect call goes by a number: to the start of the function of the rows whose token it is; None where it is
/// the token of none of them. It takes no memory.
pub fn call_way(rows: &[u32], number: u64) -> Option<Pair>
    requires { Rises rows.now }
    ensures { result ≡ tokens.call_way rows.now number }
{
    match row_at(rows, number) {
        Some(func) => Some(Pair { func, off: 0 }),
        None => None,
    }
}

/// Whether the function has a label.
fn has_label(labels: &[Pair], func: u32) -> bool
    requires { RisesByFunc labels.now }
    ensures { result ≡ tokens.has_label labels.now func }
{
    let mut low = 0;
    let mut high = labels.len();
    while low < high {
        let middle = low + (high - low) / 2;
        if labels[middle].func < func {
            low = middle + 1;
        } else {
            high = middle;
        }
    }
    low < labels.len() && labels[low].func == func
}

/// Where an indirect jump of a function goes by a number: to a label of the function, where that has any, else as a call.
/// It takes no memory.
pub fn tail_way(rows: &[u32], labels: &[Pair], func: u32, number: u64) -> Option<Pair>
    requires rows { Rises rows.now }
    requires labels { RisesByFunc labels.now }
    ensures { result ≡ tokens.tail_way rows.now labels.now func number }
{
    if labels.is_empty() || !has_label(labels, func) {
        call_way(rows, number)
    } else {
        label_at(labels, func, number)
    }
}
