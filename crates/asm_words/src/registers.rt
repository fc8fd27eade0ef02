// SPDX-License-Identifier: Apache-2.0
//! The names of registers.
ghost use Rattle.std.specs.Prelude.{◌≡◌};
ghost use Rattle.asm_words.specs.Tables.{named};
ghost use Rattle.asm_words.specs.Registers.{pointers as pointer_rows, temporaries as temporary_rows, saved as saved_rows, arguments as argument_rows, by_use as by_use_rows, below_ten as below_ten_rows, below_twenty as below_twenty_rows, from_twenty as from_twenty_rows, numbered as numbered_rows, register_named as register_named_of};

/// The register of `zero`, the return address and the pointers.
#[tactic(auto, unfolding(crate::specs::Registers::pointers))]
fn pointer(name: &str) -> Option<u8>
    ensures { result ≡ named pointer_rows name.now }
{
    let number = match name {
        "zero" => 0,
        "ra" => 1,
        "sp" => 2,
        "gp" => 3,
        "tp" => 4,
        _ => return None,
    };
    Some(number)
}

/// The register of `t0` to `t6`.
#[tactic(auto, unfolding(crate::specs::Registers::temporaries))]
fn temporary(name: &str) -> Option<u8>
    ensures { result ≡ named temporary_rows name.now }
{
    let number = match name {
        "t0" => 5,
        "t1" => 6,
        "t2" => 7,
        "t3" => 28,
        "t4" => 29,
        "t5" => 30,
        "t6" => 31,
        _ => return None,
    };
    Some(number)
}

/// The register of `s0` to `s11`.
#[tactic(auto, unfolding(crate::specs::Registers::saved))]
fn saved(name: &str) -> Option<u8>
    ensures { result ≡ named saved_rows name.now }
{
    let number = match name {
        "s0" => 8,
        "s1" => 9,
        "s2" => 18,
        "s3" => 19,
        "s4" => 20,
        "s5" => 21,
        "s6" => 22,
        "s7" => 23,
        "s8" => 24,
        "s9" => 25,
        "s10" => 26,
        "s11" => 27,
        _ => return None,
    };
    Some(number)
}

/// The register of `a0` to `a7`.
#[tactic(auto, unfolding(crate::specs::Registers::arguments))]
fn argument(name: &str) -> Option<u8>
    ensures { result ≡ named argument_rows name.now }
{
    let number = match name {
        "a0" => 10,
        "a1" => 11,
        "a2" => 12,
        "a3" => 13,
        "a4" => 14,
        "a5" => 15,
        "a6" => 16,
        "a7" => 17,
        _ => return None,
    };
    Some(number)
}

/// The register with this name of the calling convention.
#[tactic(auto, using(crate::proofs::Tables::by_use_parts))]
fn by_use(name: &str) -> Option<u8>
    ensures { result ≡ named by_use_rows name.now }
{
    if let Some(number) = pointer(name) {
        return Some(number);
    }
    if let Some(number) = temporary(name) {
        return Some(number);
    }
    if let Some(number) = saved(name) {
        return Some(number);
    }
    argument(name)
}

/// The register of `x0` to `x9`.
#[tactic(auto, unfolding(crate::specs::Registers::below_ten))]
fn below_ten(name: &str) -> Option<u8>
    ensures { result ≡ named below_ten_rows name.now }
{
    let number = match name {
        "x0" => 0,
        "x1" => 1,
        "x2" => 2,
        "x3" => 3,
        "x4" => 4,
        "x5" => 5,
        "x6" => 6,
        "x7" => 7,
        "x8" => 8,
        "x9" => 9,
        _ => return None,
    };
    Some(number)
}

/// The register of `x10` to `x19`.
#[tactic(auto, unfolding(crate::specs::Registers::below_twenty))]
fn below_twenty(name: &str) -> Option<u8>
    ensures { result ≡ named below_twenty_rows name.now }
{
    let number = match name {
        "x10" => 10,
        "x11" => 11,
        "x12" => 12,
        "x13" => 13,
        "x14" => 14,
        "x15" => 15,
        "x16" => 16,
        "x17" => 17,
        "x18" => 18,
        "x19" => 19,
        _ => return None,
    };
    Some(number)
}

/// The register of `x20` to `x31`.
#[tactic(auto, unfolding(crate::specs::Registers::from_twenty))]
fn from_twenty(name: &str) -> Option<u8>
    ensures { result ≡ named from_twenty_rows name.now }
{
    let number = match name {
        "x20" => 20,
        "x21" => 21,
        "x22" => 22,
        "x23" => 23,
        "x24" => 24,
        "x25" => 25,
        "x26" => 26,
        "x27" => 27,
        "x28" => 28,
        "x29" => 29,
        "x30" => 30,
        "x31" => 31,
        _ => return None,
    };
    Some(number)
}

/// The register with this number.
#[tactic(auto, using(crate::proofs::Tables::numbered_parts))]
fn numbered(name: &str) -> Option<u8>
    ensures { result ≡ named numbered_rows name.now }
{
    if let Some(number) = below_ten(name) {
        return Some(number);
    }
    if let Some(number) = below_twenty(name) {
        return Some(number);
    }
    from_twenty(name)
}

/// The register of this name.
#[tactic(auto, unfolding(crate::specs::Registers::register_named))]
pub fn register_named(name: &str) -> Option<u8>
    ensures { result ≡ register_named_of name.now }
{
    if let Some(number) = by_use(name) {
        return Some(number);
    }
    numbered(name)
}
