// SPDX-License-Identifier: Apache-2.0
//! Numbers of the source language.
ghost use Rattle.std.specs.Prelude.{◌≡◌, ◌≤◌, ◌<◌, ◌^◌, pos, ◌-ℤ◌, Some, None, IfSome, true, false};
ghost use Rattle.asm_words.specs.Numbers.{digit_value as digit_value_of, digit_of, digits, magnitude as magnitude_of, signed as signed_of, number_of};

use crate::characters::{is_digit, trimmed};

const LIMIT: u128 = 0x1_0000_0000_0000_0000;

fn digit_value(c: u8) -> Option<u8>
    ensures { result ≡ digit_value_of c }
{
    if is_digit(c) {
        Some(c - b'0')
    } else if b'a' <= c && c <= b'f' {
        Some(c - b'a' + 10)
    } else if b'A' <= c && c <= b'F' {
        Some(c - b'A' + 10)
    } else {
        None
    }
}

#[tactic(auto, unfolding(crate::specs::Numbers::digit_of))]
fn digit(base: u8, c: u8) -> Option<u8>
    requires { base ≤ 16 }
    ensures value { result ≡ digit_of base c }
    ensures small { IfSome result (λ d. d < 16) }
{
    let value = digit_value(c)?;
    if value < base { Some(value) } else { None }
}

#[tactic(auto, unfolding(crate::specs::Numbers::digits))]
fn number_in(base: u8, text: &[u8]) -> Option<u128>
    requires { base ≤ 16 }
    ensures value { result ≡ digits base 0 text.now }
    ensures small { IfSome result (λ n. n ≤ 2 ^ 64) }
{
    let mut so_far: u128 = 0;
    for c in text {
        let d = digit(base, *c)?;
        so_far = (so_far * u128::from(base) + u128::from(d)).min(LIMIT);
    }
    Some(so_far)
}

#[tactic(auto, unfolding(crate::specs::Numbers::magnitude))]
fn magnitude(text: &[u8]) -> Option<u128>
    ensures value { result ≡ magnitude_of text.now }
    ensures small { IfSome result (λ n. n ≤ 2 ^ 64) }
{
    if text.is_empty() {
        None
    } else if text[0] != b'0' {
        number_in(10, text)
    } else if text.len() == 1 {
        Some(0)
    } else if text[1] == b'x' && text.len() > 2 {
        number_in(16, &text[2..])
    } else {
        None
    }
}

#[tactic(auto, unfolding(crate::specs::Numbers::signed))]
fn signed(text: &[u8]) -> Option<i128>
    ensures { result ≡ signed_of text.now }
{
    if !text.is_empty() && text[0] == b'-' {
        Some(0 - magnitude(&text[1..])? as i128)
    } else {
        Some(magnitude(text)? as i128)
    }
}

/// The number that the operand is.
#[tactic(auto, unfolding(crate::specs::Numbers::number_of))]
pub fn number(text: &[u8]) -> Option<i128>
    ensures { result ≡ number_of text.now }
{
    signed(trimmed(text))
}
