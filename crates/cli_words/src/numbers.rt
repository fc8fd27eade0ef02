// SPDX-License-Identifier: Apache-2.0
//! Words that are numbers, and words that are seeds.
ghost use Rattle.std.specs.Prelude.{◌≡◌, ◌≤◌, IfSome};
ghost use Rattle.std.specs.Str.{all_ascii_digits};
ghost use Rattle.cli_words.specs.Numbers.{is_decimal as is_decimal_of, number_in as number_in_of, seed_of};

use crate::limits::SEED_SIZE;
use hex::FromHex;

fn are_digits(word: &[u8]) -> bool
    ensures { result ≡ all_ascii_digits word.now }
{
    for c in word {
        if !c.is_ascii_digit() {
            return false;
        }
    }
    true
}

/// Whether the word is decimal digits, without a 0 in front of others.
fn is_decimal(word: &[u8]) -> bool
    ensures { result ≡ is_decimal_of word.now }
{
    if word.is_empty() || (word[0] == b'0' && word.len() != 1) {
        return false;
    }
    are_digits(word)
}

/// The number that the word is, where it is at least `least` and at most `most`.
#[tactic(auto, using(crate::proofs::Decimals::number_parsed))]
pub fn number_in(least: u64, most: u64, word: &str) -> Option<u64>
    ensures value { result ≡ number_in_of least most word.now }
    ensures range { IfSome result (λ n. n ≤ most) }
{
    if !is_decimal(word.as_bytes()) {
        return None;
    }
    let number = word.parse::<u64>().ok()?;
    if least <= number && number <= most {
        Some(number)
    } else {
        None
    }
}

/// The bytes that the hexadecimal digits of the word write, in their order.
pub fn seed(word: &str) -> Option<[u8; SEED_SIZE]>
    ensures { result ≡ seed_of word.now }
{
    <[u8; SEED_SIZE] as FromHex>::from_hex(word).ok()
}
