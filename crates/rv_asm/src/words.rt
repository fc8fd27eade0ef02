// SPDX-License-Identifier: Apache-2.0
//! The instructions of statements.
ghost use Rattle.std.specs.Prelude.{◌≡◌, ◌<◌, ◌*◌, ◌^◌, [], ◌∷◌, true};
ghost use Rattle.rv_table.specs.Instruction.{low_bits, IsSigned};
ghost use Rattle.rv_table.specs.Decoding.{made, signed_bits};
ghost use Rattle.asm_places.specs.Ranges.{is_from, is_immediate, is_in_range};
ghost use Rattle.asm_places.specs.Places.{natural as natural_of, is_small as is_small_of};
ghost use Rattle.rv_asm.specs.Words.{hi20, upper as upper_of, lower as lower_of, literal_of, instrs_of};
ghost use Rattle.rv_table.specs.declared.instructions.Op.TheVariants.{Auipc};
ghost use Rattle.rv_asm.specs.Seen.{instrs_seen};

use asm_places::{is_small, natural};
use asm_text::Statement;
use rv_table::{Instr, Op};

/// The instructions of a statement, in their order.
#[derive(Clone, Copy, Debug, PartialEq, Eq)]
pub enum Sequence {
    None,
    One { first: Instr },
    Two { first: Instr, second: Instr },
}

fn low_32(value: i64) -> u32
    requires { IsSigned 31 value }
    ensures { result ≡ low_bits 32 value }
{
    (value.cast_unsigned() & 0xffff_ffff) as u32
}

fn signed_32(bits: u32) -> i64
    ensures { result ≡ signed_bits 31 bits }
{
    if bits < 0x8000_0000 {
        i64::from(bits)
    } else {
        i64::from(bits) - 0x1_0000_0000
    }
}

fn signed_12(bits: u32) -> i64
    requires { bits < 2 ^ 12 }
    ensures { result ≡ signed_bits 11 bits }
{
    if bits < 0x800 {
        i64::from(bits)
    } else {
        i64::from(bits) - 0x1000
    }
}

fn high(bits: u32) -> u32
    ensures value { result ≡ hi20 bits }
    ensures small { result < 2 ^ 20 }
{
    ((u64::from(bits) + 0x800) / 0x1000 % 0x10_0000) as u32
}

#[tactic(auto, unfolding(crate::specs::Words::upper))]
fn upper(value: i64) -> i64
    requires { IsSigned 31 value }
    ensures { result ≡ upper_of value }
{
    signed_32(high(low_32(value)) * 4096)
}

#[tactic(auto, unfolding(crate::specs::Words::lower))]
fn lower(value: i64) -> i64
    requires { IsSigned 31 value }
    ensures { result ≡ lower_of value }
{
    signed_12(low_32(value) % 4096)
}

fn instr(op: Op, rd: u8, rs1: u8, rs2: u8, imm: i64) -> Instr
    ensures { result ≡ made op rd rs1 rs2 imm }
{
    Instr {
        op,
        rd,
        rs1,
        rs2,
        imm,
    }
}

#[tactic(auto, using(crate::proofs::Narrow::immediate_small))]
fn narrow(op: Op, imm: i128) -> i64
    requires { is_immediate op imm ≡ true }
    ensures { result ≡ imm }
{
    imm as i64
}

fn literal_value(value: i128) -> i64
    requires { is_from (2 ^ 31) (2 ^ 31) value ≡ true }
    ensures value { result ≡ value }
    ensures fits { IsSigned 31 result }
{
    value as i64
}

fn field(value: i128) -> i64
    requires { is_from 0 (2 ^ 20) value ≡ true }
    ensures { result ≡ signed_bits 31 (natural_of value * 4096) }
{
    signed_32(value as u32 * 4096)
}

fn literal(rd: u8, value: i128) -> Sequence
    requires { is_from (2 ^ 31) (2 ^ 31) value ≡ true }
    ensures { instrs_seen result ≡ literal_of rd value }
{
    let small = is_small(value);
    let value = literal_value(value);
    if small {
        Sequence::One {
            first: instr(Op::Addi, rd, 0, 0, value),
        }
    } else {
        Sequence::Two {
            first: instr(Op::Lui, rd, 0, 0, upper(value)),
            second: instr(Op::Addiw, rd, rd, 0, lower(value)),
        }
    }
}

fn pair(base: u8, op: Op, rd: u8, distance: i64) -> Sequence
    requires { IsSigned 31 distance }
    ensures { instrs_seen result ≡ made Auipc base 0 0 (upper_of distance) ∷ made op rd base 0 (lower_of distance) ∷ [] }
{
    Sequence::Two {
        first: instr(Op::Auipc, base, 0, 0, upper(distance)),
        second: instr(op, rd, base, 0, lower(distance)),
    }
}

fn one(op: Op, rd: u8, rs1: u8, rs2: u8, imm: i64) -> Sequence
    ensures { instrs_seen result ≡ made op rd rs1 rs2 imm ∷ [] }
{
    Sequence::One {
        first: instr(op, rd, rs1, rs2, imm),
    }
}

/// The instructions of a statement, at this distance from what it names: an instruction alone, one behind LUI or AUIPC,
/// or none.
#[tactic(auto, unfolding(crate::specs::Words::instrs_of, asm_places::specs::Ranges::is_in_range))]
pub fn instrs(statement: &Statement, distance: i64) -> Sequence
    requires range { is_in_range statement.now ≡ true }
    requires distance { IsSigned 31 distance }
    ensures { instrs_seen result ≡ instrs_of distance statement.now }
{
    match statement {
        Statement::Plain {
            op,
            rd,
            rs1,
            rs2,
            imm,
        } => one(*op, *rd, *rs1, *rs2, narrow(*op, *imm)),
        Statement::Upper { op, rd, value } => one(*op, *rd, 0, 0, field(*value)),
        Statement::Branch { op, rs1, rs2, .. } => one(*op, 0, *rs1, *rs2, distance),
        Statement::Jump { rd, .. } => one(Op::Jal, *rd, 0, 0, distance),
        Statement::Literal { rd, value } => literal(*rd, *value),
        Statement::Address { rd, .. } => pair(*rd, Op::Addi, *rd, distance),
        Statement::Call { .. } => pair(1, Op::Jalr, 1, distance),
        Statement::Tail { .. } => pair(6, Op::Jalr, 0, distance),
        _ => Sequence::None,
    }
}
