// SPDX-License-Identifier: Apache-2.0
//! Tokens are put into bytes.
ghost use Rattle.std.specs.Prelude.{◌≡◌, ◌∷◌, [], ◌+◌, ◌-◌, ◌<◌, ◌≤◌, ◌^◌, ℕ, All, find, length, min, slice_index_or};
ghost use Rattle.std.specs.List.Sorted.{IsNonDecreasingBy};
ghost use Rattle.image_rules.specs.declared.tokens.Token.{Token};
ghost use Rattle.image_rules.specs.Bound.{byte_by, byte_of as byte_of_number, bytes_by, takes_byte};
ghost use Rattle.image_binding.specs.Binds.{IsLaid, IsNarrow};

use image_rules::Token;

/// Byte i of a number, the lowest first.
fn byte_of(value: u64, i: u64) -> u8
    requires { i < 8 }
    ensures { result ≡ byte_of_number value i }
{
    ((value >> (8 * i)) % 256) as u8
}

/// The byte at an address with a token, of the one that is there without it.
fn byte_with(token: &Token, address: u64, byte: u8) -> u8
    requires { IsNarrow token.now }
    ensures { result ≡ byte_by address (find (takes_byte address) (token.now ∷ [])) byte }
{
    if token.place <= address && address - token.place < token.width {
        return byte_of(token.value, address - token.place);
    }
    byte
}

/// Where an address stands among so many from another on, and their number where it is past them.
fn index_of(address: u64, from: u64, count: usize) -> usize
    ensures { result ≡ min (address - from) count }
{
    address.saturating_sub(from).min(count as u64) as usize
}

/// Puts a token into bytes, which are those from an address on.
fn lay_token(token: &Token, from: u64, bytes: &mut [u8])
    requires narrow { IsNarrow token.now }
    requires low { from + length bytes.old < 2 ^ 64 }
    ensures { IsLaid (token.now ∷ []) from bytes.old bytes.new }
{
    let first = index_of(token.place, from, bytes.len());
    let end = index_of(token.place.saturating_add(token.width), from, bytes.len());
    for i in first..end {
        bytes[i] = byte_with(token, from + i as u64, bytes[i]);
    }
}

/// Puts tokens into bytes, which are those from an address on; where two take a byte, the first has it.
fn lay_all(tokens: &[Token], from: u64, bytes: &mut [u8])
    requires narrow { All IsNarrow tokens.now }
    requires low { from + length bytes.old < 2 ^ 64 }
    ensures { IsLaid tokens.now from bytes.old bytes.new }
{
    for i in 0..tokens.len() {
        lay_token(&tokens[tokens.len() - 1 - i], from, bytes);
    }
}

/// How many of the tokens stand before an address.
fn standing_before(tokens: &[Token], address: u64) -> usize
    requires { IsNonDecreasingBy (λ (t : Token). t.place) tokens.now }
    ensures bound { result ≤ length tokens.now }
    ensures below { (k : ℕ) (d : Token) → k < result → (slice_index_or tokens.now k d).place < address }
    ensures above { (k : ℕ) (d : Token) → result ≤ k → k < length tokens.now → address ≤ (slice_index_or tokens.now k d).place }
{
    tokens.partition_point(|token| token.place < address)
}

/// Of tokens by rising addresses those that can take a byte from one address up to another.
fn within<'a>(tokens: &'a [Token], from: u64, to: u64) -> &'a [Token]
    requires narrow { All IsNarrow tokens.now }
    requires rise { IsNonDecreasingBy (λ (t : Token). t.place) tokens.now }
    requires order { from ≤ to }
    ensures found { (address : ℕ) → from ≤ address → address < to → find (takes_byte address) result.now ≡ find (takes_byte address) tokens.now }
    ensures narrow { All IsNarrow result.now }
{
    let first = standing_before(tokens, from.saturating_sub(7));
    let end = standing_before(tokens, to);
    &tokens[first..end]
}

/// Puts tokens, which stand by rising addresses, into bytes, which are those from an address on. The time is that of the
/// tokens that are put there, and of a binary search.
pub fn lay(tokens: &[Token], from: u64, bytes: &mut [u8])
    requires narrow { All IsNarrow tokens.now }
    requires rise { IsNonDecreasingBy (λ (t : Token). t.place) tokens.now }
    requires low { from + length bytes.old < 2 ^ 64 }
    ensures { bytes.new ≡ bytes_by tokens.now from bytes.old }
{
    let inside = within(tokens, from, from + bytes.len() as u64);
    lay_all(inside, from, bytes);
}
