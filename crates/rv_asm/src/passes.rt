// SPDX-License-Identifier: Apache-2.0
//! The faults of a source, pass by pass.
ghost use Rattle.std.specs.Prelude.{◌≡◌, ◌<◌, ◌^◌, length, IfOk};
ghost use Rattle.asm_text.specs.Seen.{seen};
ghost use Rattle.rv_asm.specs.Passes.{lower_line as lower_line_of, earlier as earlier_of, else_fault as else_fault_of, at_line as at_line_of, first_pass as first_pass_of, second_pass as second_pass_of};

use asm_places::{entry_twice_line, first_unknown, misplaced_line, name_twice_line, range_line};
use asm_text::{AsmRule, Item, LineFault, Source};
use sh_types::NoMemory;
use std::alloc::Global;

fn lower_line(a: Option<u32>, b: Option<u32>) -> Option<u32>
    ensures { result ≡ lower_line_of a b }
{
    match (a, b) {
        (None, b) => b,
        (Some(a), None) => Some(a),
        (Some(a), Some(b)) => { if a <= b { Some(a) } else { Some(b) } }
    }
}

fn earlier(a: Option<LineFault>, b: Option<LineFault>) -> Option<LineFault>
    ensures { result ≡ earlier_of a b }
{
    match (a, b) {
        (None, b) => b,
        (Some(a), None) => Some(a),
        (Some(a), Some(b)) => { if a.line <= b.line { Some(a) } else { Some(b) } }
    }
}

fn else_fault(a: Option<LineFault>, b: Option<LineFault>) -> Option<LineFault>
    ensures { result ≡ else_fault_of a b }
{
    match a {
        None => b,
        Some(a) => Some(a),
    }
}

/// The fault of a rule at a line, where there is one.
pub fn at_line(rule: AsmRule, line: Option<u32>) -> Option<LineFault>
    ensures { result ≡ at_line_of rule line }
{
    match line {
        Some(line) => Some(LineFault { line, rule }),
        None => None,
    }
}

/// The first line with a fault of Text, Form or Twice, and on it the first of these.
#[tactic(auto, unfolding(crate::specs::Passes::first_pass))]
pub fn first_pass(alloc: Global, source: &Source) -> Result<Option<LineFault>, NoMemory>
    requires { length source.now.items < 2 ^ 63 }
    ensures { IfOk result (λ fault. fault ≡ first_pass_of (seen source.now)) }
{
    let items = source.items.as_slice();
    let misplaced = at_line(AsmRule::Form, misplaced_line(items));
    let twice = lower_line(entry_twice_line(items), name_twice_line(alloc, items)?);
    let fault = earlier(misplaced, at_line(AsmRule::Twice, twice));
    Ok(else_fault(fault, source.fault))
}

/// The first line with a fault of Name or Range, distances apart, and on it the first of these.
pub fn second_pass(alloc: Global, items: &[Item]) -> Result<Option<LineFault>, NoMemory>
    requires { length items.now < 2 ^ 63 }
    ensures { IfOk result (λ fault. fault ≡ second_pass_of items.now) }
{
    let unknown = at_line(AsmRule::Name, first_unknown(alloc, items)?);
    Ok(earlier(unknown, at_line(AsmRule::Range, range_line(items))))
}
