// SPDX-License-Identifier: Apache-2.0
//! Fields put side by side, from the low bits up.
ghost use Rattle.std.specs.Prelude.{◌≡◌, ◌+◌, ◌*◌, ◌/◌, ◌%◌, ◌^◌, ◌<◌};

pub fn branch_low(n: u32) -> u32
    ensures { result ≡ n / 2 ^ 11 % 2 + 2 * (n / 2 % 2 ^ 4) }
{
    (n >> 11 & 1) | (n >> 1 & 0xf) << 1
}

pub fn branch_high(n: u32) -> u32
    requires { n < 2 ^ 13 }
    ensures { result ≡ n / 2 ^ 5 % 2 ^ 6 + 2 ^ 6 * (n / 2 ^ 12) }
{
    (n >> 5 & 0x3f) | (n >> 12) << 6
}

pub fn jump_field(n: u32) -> u32
    requires { n < 2 ^ 21 }
    ensures { result ≡ n / 2 ^ 12 % 2 ^ 8 + 2 ^ 8 * (n / 2 ^ 11 % 2) + 2 ^ 9 * (n / 2 % 2 ^ 10) + 2 ^ 19 * (n / 2 ^ 20) }
{
    (n >> 12 & 0xff) | (n >> 11 & 1) << 8 | (n >> 1 & 0x3ff) << 9 | (n >> 20) << 19
}

pub fn top(rs2: u8, high: u32) -> u32
    requires rs2 { rs2 < 2 ^ 5 }
    requires high { high < 2 ^ 7 }
    ensures { result ≡ rs2 + 2 ^ 5 * high }
{
    u32::from(rs2) | high << 5
}

pub fn placed_long(opcode: u32, rd: u8, top: u32) -> u32
    requires opcode { opcode < 2 ^ 7 }
    requires rd { rd < 2 ^ 5 }
    requires top { top < 2 ^ 20 }
    ensures { result ≡ opcode + 2 ^ 7 * rd + 2 ^ 12 * top }
{
    opcode | u32::from(rd) << 7 | top << 12
}

pub fn placed(opcode: u32, low: u32, funct3: u32, rs1: u8, top: u32) -> u32
    requires opcode { opcode < 2 ^ 7 }
    requires low { low < 2 ^ 5 }
    requires funct3 { funct3 < 2 ^ 3 }
    requires rs1 { rs1 < 2 ^ 5 }
    requires top { top < 2 ^ 12 }
    ensures { result ≡ opcode + 2 ^ 7 * low + 2 ^ 12 * funct3 + 2 ^ 15 * rs1 + 2 ^ 20 * top }
{
    opcode | low << 7 | funct3 << 12 | u32::from(rs1) << 15 | top << 20
}
