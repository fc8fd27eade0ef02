// SPDX-License-Identifier: Apache-2.0
//! The ranges of operands.
ghost use Rattle.std.specs.Prelude.{◌≡◌, ◌<◌, ◌^◌, IsTrue};
ghost use Rattle.asm_places.specs.Ranges.{is_from as is_from_of, is_immediate as is_immediate_of, is_value as is_value_of, is_in_range as is_in_range_of};

use asm_text::Statement;
use rv_table::Op;

/// Whether the number is from `-low` to `high - 1`.
pub fn is_from(low: u128, high: u128, value: i128) -> bool
    requires low { low < 2 ^ 100 }
    requires high { high < 2 ^ 100 }
    ensures { result ≡ is_from_of low high value }
{
    -(low as i128) <= value && value < high as i128
}

#[tactic(auto, unfolding(crate::specs::Ranges::is_immediate))]
fn is_immediate(op: Op, imm: i128) -> bool
    ensures { result ≡ is_immediate_of op imm }
{
    match op {
        Op::Slli => is_from(0, 64, imm),
        Op::Srli => is_from(0, 64, imm),
        Op::Srai => is_from(0, 64, imm),
        Op::Slliw => is_from(0, 32, imm),
        Op::Srliw => is_from(0, 32, imm),
        Op::Sraiw => is_from(0, 32, imm),
        _ => is_from(2048, 2048, imm),
    }
}

fn is_value(width: u8, value: i128) -> bool
    ensures { result ≡ is_value_of width value }
{
    match width {
        1 => is_from(1 << 7, 1 << 8, value),
        4 => is_from(1 << 31, 1 << 32, value),
        _ => is_from(1 << 63, 1 << 64, value),
    }
}

/// Whether the operands are in range, distances apart.
#[tactic(auto, unfolding(crate::specs::Ranges::is_in_range))]
pub fn is_in_range(statement: &Statement) -> bool
    ensures { result ≡ is_in_range_of statement.now }
{
    match statement {
        Statement::Raw { value } => is_from(0, 1 << 32, *value),
        Statement::Nops { count } => is_from(0, 67_108_865, *count),
        Statement::Value { width, value } => is_value(*width, *value),
        Statement::Zero { count } => is_from(0, 67_108_865, *count),
        Statement::Align { to } => is_from(0, 4097, *to) && !is_from(0, 1, *to),
        Statement::Plain { op, imm, .. } => is_immediate(*op, *imm),
        Statement::Upper { value, .. } => is_from(0, 1 << 20, *value),
        Statement::Literal { value, .. } => is_from(1 << 31, 1 << 31, *value),
        _ => true,
    }
}
