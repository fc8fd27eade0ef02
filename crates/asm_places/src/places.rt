// SPDX-License-Identifier: Apache-2.0
//! Where statements stand.
ghost use Rattle.std.specs.Prelude.{◌≡◌, ◌≤◌, ◌<◌, ◌^◌, true, false, length, IfSome, IfNone};
ghost use Rattle.asm_places.specs.Places.{is_code as is_code_of, is_data as is_data_of, is_misplaced as is_misplaced_of, is_inside_after as is_inside_after_of, misplaced_line as misplaced_line_of, is_open as is_open_of, natural as natural_of, is_small as is_small_of, text_size as text_size_of, padding as padding_of, data_size as data_size_of, begins as begins_of, place_after as place_after_of, first_place};
ghost use Rattle.asm_places.specs.Ranges.{is_from, is_in_range as is_in_range_of, is_past, range_line as range_line_of};

use crate::ranges::is_in_range;
use asm_text::{Item, Statement};

/// The longest text and the longest data.
pub const LONGEST: u64 = 67_108_864;

/// Where a statement stands: in a function or not, how many functions have begun, and the offsets in the text and in
/// the data.
#[derive(Clone, Copy, Debug, PartialEq, Eq)]
pub struct Place {
    pub inside: bool,
    pub functions: usize,
    pub text: u64,
    pub data: u64,
}

fn is_code(statement: &Statement) -> bool
    ensures { result ≡ is_code_of statement.now }
{
    match statement {
        Statement::Raw { .. } => true,
        Statement::Nops { .. } => true,
        Statement::Plain { .. } => true,
        Statement::Upper { .. } => true,
        Statement::Branch { .. } => true,
        Statement::Jump { .. } => true,
        Statement::Literal { .. } => true,
        Statement::Address { .. } => true,
        Statement::Call { .. } => true,
        Statement::Tail { .. } => true,
        _ => false,
    }
}

fn is_data(statement: &Statement) -> bool
    ensures { result ≡ is_data_of statement.now }
{
    match statement {
        Statement::Value { .. } => true,
        Statement::Reference { .. } => true,
        Statement::Zero { .. } => true,
        Statement::Ascii { .. } => true,
        Statement::Align { .. } => true,
        _ => false,
    }
}

#[tactic(auto, unfolding(crate::specs::Places::is_misplaced))]
fn is_misplaced(inside: bool, statement: &Statement) -> bool
    ensures { result ≡ is_misplaced_of inside statement.now }
{
    match statement {
        Statement::Function { .. } => inside,
        Statement::EndFunction => !inside,
        other => {
            if inside {
                is_data(other)
            } else {
                is_code(other)
            }
        }
    }
}

/// Whether what follows the statement is in a function.
#[tactic(auto, unfolding(crate::specs::Places::is_inside_after))]
pub fn is_inside_after(inside: bool, statement: &Statement) -> bool
    ensures { result ≡ is_inside_after_of inside statement.now }
{
    match statement {
        Statement::Function { .. } => true,
        Statement::EndFunction => false,
        _ => inside,
    }
}

/// The line of the first statement that stands in the wrong place.
#[tactic(auto, unfolding(crate::specs::Places::misplaced_line))]
pub fn misplaced_line(items: &[Item]) -> Option<u32>
    ensures { result ≡ misplaced_line_of false items.now }
{
    let mut inside = false;
    for item in items {
        if is_misplaced(inside, &item.statement) {
            return Some(item.line);
        }
        inside = is_inside_after(inside, &item.statement);
    }
    None
}

/// Whether the function that begins last has no end.
#[tactic(auto, unfolding(crate::specs::Places::is_open))]
pub fn is_open(items: &[Item]) -> bool
    ensures { result ≡ is_open_of false items.now }
{
    let mut inside = false;
    for item in items {
        inside = is_inside_after(inside, &item.statement);
    }
    inside
}

/// Whether the number has 12 bits, with its sign.
pub fn is_small(value: i128) -> bool
    ensures { result ≡ is_small_of value }
{
    -2048 <= value && value < 2048
}

/// The number of a count in range.
pub fn natural(value: i128) -> u64
    requires { is_from 0 67108865 value ≡ true }
    ensures value { result ≡ natural_of value }
    ensures small { result ≤ 67108864 }
{
    value as u64
}

/// How many bytes of the text the statement takes.
#[tactic(auto, unfolding(crate::specs::Places::text_size, crate::specs::Ranges::is_in_range))]
pub fn text_size(statement: &Statement) -> u64
    requires { is_in_range_of statement.now ≡ true }
    ensures value { result ≡ text_size_of statement.now }
    ensures small { result ≤ 268435456 }
{
    match statement {
        Statement::Raw { .. } => 4,
        Statement::Nops { count } => 4 * natural(*count),
        Statement::Plain { .. } => 4,
        Statement::Upper { .. } => 4,
        Statement::Branch { .. } => 4,
        Statement::Jump { .. } => 4,
        Statement::Literal { value, .. } => { if is_small(*value) { 4 } else { 8 } }
        Statement::Address { .. } => 8,
        Statement::Call { .. } => 8,
        Statement::Tail { .. } => 8,
        _ => 0,
    }
}

/// The number of `.align`.
pub fn alignment(to: i128) -> u64
    requires low { is_from 0 1 to ≡ false }
    requires high { is_from 0 4097 to ≡ true }
    ensures value { result ≡ natural_of to }
    ensures some { 0 < result }
{
    to as u64
}

/// How many bytes lead from a place to the next multiple of a number.
pub fn padding(at: u64, to: u64) -> u64
    requires { 0 < to }
    ensures { result ≡ padding_of at to }
{
    (to - at % to) % to
}

/// How many bytes of the data the statement takes, at this offset.
#[tactic(auto, unfolding(crate::specs::Places::data_size, crate::specs::Ranges::is_in_range))]
pub fn data_size(at: u64, statement: &Statement) -> u64
    requires { is_in_range_of statement.now ≡ true }
    ensures { result ≡ data_size_of at statement.now }
{
    match statement {
        Statement::Value { width, .. } => u64::from(*width),
        Statement::Reference { width, .. } => u64::from(*width),
        Statement::Zero { count } => natural(*count),
        Statement::Ascii { bytes } => bytes.len() as u64,
        Statement::Align { to } => padding(at, alignment(*to)),
        _ => 0,
    }
}

/// How many functions the statement begins.
pub fn begins(statement: &Statement) -> usize
    ensures value { result ≡ begins_of statement.now }
    ensures small { result ≤ 1 }
{
    match statement {
        Statement::Function { .. } => 1,
        _ => 0,
    }
}

/// The place behind a statement; None where the text or the data would be too long.
#[tactic(auto, unfolding(crate::specs::Places::place_after))]
fn place_after(place: Place, statement: &Statement) -> Option<Place>
    requires range { is_in_range_of statement.now ≡ true }
    requires past { is_past place ≡ false }
    requires functions { place.functions < 2 ^ 63 }
    ensures some { IfSome result (λ p. (p ≡ place_after_of place statement.now) × (is_past p ≡ false)) }
    ensures none { IfNone result (is_past (place_after_of place statement.now) ≡ true) }
{
    let text = place.text + text_size(statement);
    let size = data_size(place.data, statement);
    if text > LONGEST || size > LONGEST - place.data {
        return None;
    }
    Some(Place {
        inside: is_inside_after(place.inside, statement),
        functions: place.functions + begins(statement),
        text,
        data: place.data + size,
    })
}

/// The line of the first statement with an operand out of range, or by which the text or the data grows too long.
/// Distances are not looked at.
#[tactic(auto, unfolding(crate::specs::Ranges::range_line))]
pub fn range_line(items: &[Item]) -> Option<u32>
    requires { length items.now < 2 ^ 63 }
    ensures { result ≡ range_line_of first_place items.now }
{
    let mut place = Place {
        inside: false,
        functions: 0,
        text: 0,
        data: 0,
    };
    for item in items {
        if !is_in_range(&item.statement) {
            return Some(item.line);
        }
        match place_after(place, &item.statement) {
            Some(next) => place = next,
            None => return Some(item.line),
        }
    }
    None
}
