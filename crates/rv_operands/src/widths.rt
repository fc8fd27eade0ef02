// SPDX-License-Identifier: Apache-2.0
//! How many bytes an instruction touches, and what it takes of them.
ghost use Rattle.std.specs.Prelude.{◌≡◌, ◌⊎◌};
ghost use Rattle.rv_table.specs.Operands.{taken_as, width_of};

use rv_alu::extend;
use rv_table::Op;

/// How many bytes a load, a store or an atomic touches: 1, 2, 4 or 8.
#[tactic(auto, unfolding(rv_table::specs::Operands::width_of))]
#[inline(always)]
pub fn width(op: Op) -> u8
    ensures is { result ≡ width_of op }
    ensures width { (result ≡ 1) ⊎ ((result ≡ 2) ⊎ ((result ≡ 4) ⊎ (result ≡ 8))) }
{
    match op {
        Op::Lb | Op::Lbu | Op::Sb => 1,
        Op::Lh | Op::Lhu | Op::Sh => 2,
        Op::Lw
        | Op::Lwu
        | Op::Sw
        | Op::LrW
        | Op::ScW
        | Op::AmoswapW
        | Op::AmoaddW
        | Op::AmoxorW
        | Op::AmoandW
        | Op::AmoorW
        | Op::AmominW
        | Op::AmomaxW
        | Op::AmominuW
        | Op::AmomaxuW => 4,
        _ => 8,
    }
}

/// What an atomic takes of the bytes at its place, as a number.
#[tactic(auto, unfolding(rv_table::specs::Operands::taken_as, rv_table::specs::Arithmetic::extend_of, rv_table::specs::Instruction::row_of))]
pub fn taken(op: Op, raw: u64) -> u64
    ensures { result ≡ taken_as op raw }
{
    if width(op) == 4 {
        extend(Op::Lw, raw)
    } else {
        raw
    }
}
