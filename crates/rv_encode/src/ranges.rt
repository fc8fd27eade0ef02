// SPDX-License-Identifier: Apache-2.0
//! The bits of an immediate that is in its range.
ghost use Rattle.std.specs.Prelude.{◌≡◌, ◌<◌, ℕ, IfSome, IfNone, pos};
ghost use Rattle.rv_table.specs.Instruction.{low_bits, IsSigned};

pub fn signed_12(imm: i64) -> Option<u32>
    ensures some { IfSome result (λ n. (n ≡ low_bits 12 imm) × IsSigned 11 imm) }
    ensures none { IfNone result (IsSigned 11 imm → ⊥) }
{
    if -0x800 <= imm && imm < 0x800 {
        Some((imm.cast_unsigned() & 0xfff) as u32)
    } else {
        None
    }
}

pub fn signed_13(imm: i64) -> Option<u32>
    ensures some { IfSome result (λ n. (n ≡ low_bits 13 imm) × IsSigned 12 imm) }
    ensures none { IfNone result (IsSigned 12 imm → ⊥) }
{
    if -0x1000 <= imm && imm < 0x1000 {
        Some((imm.cast_unsigned() & 0x1fff) as u32)
    } else {
        None
    }
}

pub fn signed_21(imm: i64) -> Option<u32>
    ensures some { IfSome result (λ n. (n ≡ low_bits 21 imm) × IsSigned 20 imm) }
    ensures none { IfNone result (IsSigned 20 imm → ⊥) }
{
    if -0x10_0000 <= imm && imm < 0x10_0000 {
        Some((imm.cast_unsigned() & 0x1f_ffff) as u32)
    } else {
        None
    }
}

pub fn signed_32(imm: i64) -> Option<u32>
    ensures some { IfSome result (λ n. (n ≡ low_bits 32 imm) × IsSigned 31 imm) }
    ensures none { IfNone result (IsSigned 31 imm → ⊥) }
{
    if -0x8000_0000 <= imm && imm < 0x8000_0000 {
        Some((imm.cast_unsigned() & 0xffff_ffff) as u32)
    } else {
        None
    }
}

pub fn below(imm: i64, limit: u32) -> Option<u32>
    ensures some { IfSome result (λ n. (imm ≡ pos n) × (n < limit)) }
    ensures none { IfNone result ((n : ℕ) → imm ≡ pos n → n < limit → ⊥) }
{
    if 0 <= imm && imm < i64::from(limit) {
        Some(imm as u32)
    } else {
        None
    }
}
