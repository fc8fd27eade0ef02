// SPDX-License-Identifier: Apache-2.0
//! Tokens, the numbers that stand for functions and labels, and the row or the label that a number names.
#![tactic(auto)]

ghost use Rattle.std.specs.Prelude.{◌≡◌, ◌<◌, ◌^◌};
ghost use Rattle.sh_machines.specs.Tokens as tokens;
ghost use Rattle.token_lookup.specs.Rising.{Rises};

use sh_types::Pair;

/// The first token of a function, and of a label. Tokens are 16 apart.
const FIRST_TOKEN: u64 = 0x7000_0000;

const FIRST_LABEL_TOKEN: u64 = 0x7400_0000;

/// The token of a function.
pub fn token_of(func: u32) -> u64
    ensures token { result ≡ tokens.token_of func }
    ensures small { result < 2 ^ 40 }
{
    FIRST_TOKEN + 16 * u64::from(func)
}

/// The token of a label, by its number.
pub fn label_token(number: u32) -> u64
    ensures { result ≡ tokens.label_token number }
{
    FIRST_LABEL_TOKEN + 16 * u64::from(number)
}

/// The function whose token the number is, among those of the rows, which rise; None exactly where the number is no row's
/// token. It looks at as many as halvings of their number, and takes no memory.
pub fn row_at(rows: &[u32], number: u64) -> Option<u32>
    requires { Rises rows.now }
    ensures { result ≡ tokens.row_named rows.now number }
{
    if number < FIRST_TOKEN || number % 16 != 0 {
        return None;
    }
    let func = (number - FIRST_TOKEN) / 16;
    if func > u64::from(u32::MAX) {
        return None;
    }
    let func = func as u32;
    match rows.binary_search(&func) {
        Ok(_) => Some(func),
        Err(_) => None,
    }
}

/// The label of the function whose token the number is; None exactly where the number is the token of no label of that
/// function. It looks at one label, and takes no memory.
pub fn label_at(labels: &[Pair], func: u32, number: u64) -> Option<Pair>
    ensures { result ≡ tokens.label_named 0 labels.now func number }
{
    if number < FIRST_LABEL_TOKEN || number % 16 != 0 {
        return None;
    }
    let at = (number - FIRST_LABEL_TOKEN) / 16;
    if at >= labels.len() as u64 {
        return None;
    }
    let label = labels[at as usize];
    if label.func == func {
        Some(label)
    } else {
        None
    }
}
