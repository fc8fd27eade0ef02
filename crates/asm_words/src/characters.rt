// SPDX-License-Identifier: Apache-2.0
//! Characters of the source language: blanks, names, and where a text is cut.
ghost use Rattle.std.specs.Prelude.{◌≡◌, ◌==◌, option_map};
ghost use Rattle.std.specs.List.{list_any, list_all};
ghost use Rattle.asm_words.specs.Characters.{is_blank as is_blank_of, trimmed_start as trimmed_start_of, trimmed_end as trimmed_end_of, trimmed as trimmed_of, cut as cut_of, before, from, is_digit as is_digit_of, is_letter as is_letter_of, in_name as in_name_of, is_name as is_name_of, is_foreign as is_foreign_of};

/// Whether the character is a space or a tab.
pub fn is_blank(c: u8) -> bool
    ensures { result ≡ is_blank_of c }
{
    c == b' ' || c == b'\t'
}

/// Whether the character is a decimal digit.
pub fn is_digit(c: u8) -> bool
    ensures { result ≡ is_digit_of c }
{
    b'0' <= c && c <= b'9'
}

fn is_letter(c: u8) -> bool
    ensures { result ≡ is_letter_of c }
{
    (b'A' <= c && c <= b'Z') || (b'a' <= c && c <= b'z')
}

fn in_name(c: u8) -> bool
    ensures { result ≡ in_name_of c }
{
    is_letter(c) || is_digit(c) || c == b'_' || c == b'.'
}

fn is_foreign(c: u8) -> bool
    ensures { result ≡ is_foreign_of c }
{
    c != b'\t' && !(b' ' <= c && c <= b'~')
}

#[tactic(auto, using(crate::proofs::Trimming::start_goes_on, crate::proofs::Trimming::start_ends), unfolding(crate::specs::Characters::trimmed_start))]
fn trimmed_start(text: &[u8]) -> &[u8]
    ensures { result.now ≡ trimmed_start_of text.now }
{
    for (i, c) in text.iter().enumerate() {
        if !is_blank(*c) {
            return &text[i..];
        }
    }
    &text[text.len()..]
}

#[tactic(auto, using(crate::proofs::Trimming::end_goes_on, crate::proofs::Trimming::end_ends, crate::proofs::Trimming::end_all))]
fn trimmed_end(text: &[u8]) -> &[u8]
    ensures { result.now ≡ trimmed_end_of text.now }
{
    let mut end = text.len();
    while end > 0 {
        if !is_blank(text[end - 1]) {
            return &text[..end];
        }
        end -= 1;
    }
    &text[..end]
}

/// The text without the blanks at its ends.
pub fn trimmed(text: &[u8]) -> &[u8]
    ensures { result.now ≡ trimmed_of text.now }
{
    trimmed_end(trimmed_start(text))
}

/// What stands before the first character `mark`, and what stands behind it; None where there is none.
#[tactic(auto, using(crate::proofs::Cutting::cut_goes_on))]
pub fn cut(text: &[u8], mark: u8) -> Option<(&[u8], &[u8])>
    ensures { option_map (λ x. (x.0.now, x.1.now)) result ≡ cut_of (λ c. c == mark) text.now }
{
    for (i, c) in text.iter().enumerate() {
        if *c == mark {
            return Some((&text[..i], &text[i + 1..]));
        }
    }
    None
}

/// The text up to its first blank, and from there on.
#[tactic(auto, using(crate::proofs::Cutting::before_goes_on, crate::proofs::Cutting::before_ends, crate::proofs::Cutting::from_goes_on, crate::proofs::Cutting::from_ends), unfolding(crate::specs::Characters::before, crate::specs::Characters::from))]
pub fn first_word(text: &[u8]) -> (&[u8], &[u8])
    ensures word { result.0.now ≡ before is_blank_of text.now }
    ensures rest { result.1.now ≡ from is_blank_of text.now }
{
    for (i, c) in text.iter().enumerate() {
        if is_blank(*c) {
            return (&text[..i], &text[i..]);
        }
    }
    (text, &text[text.len()..])
}

/// Whether the text is a name.
#[tactic(auto, unfolding(crate::specs::Characters::is_name))]
pub fn is_name(text: &[u8]) -> bool
    ensures { result ≡ is_name_of text.now }
{
    if text.is_empty() || is_digit(text[0]) {
        return false;
    }
    are_in_name(text)
}

fn are_in_name(text: &[u8]) -> bool
    ensures { result ≡ list_all in_name_of text.now }
{
    for c in text {
        if !in_name(*c) {
            return false;
        }
    }
    true
}

/// Whether the line has a character that no line may have.
pub fn has_foreign(line: &[u8]) -> bool
    ensures { result ≡ list_any is_foreign_of line.now }
{
    for c in line {
        if is_foreign(*c) {
            return true;
        }
    }
    false
}
