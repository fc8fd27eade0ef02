// SPDX-License-Identifier: Apache-2.0
//! The first fault of a source.
ghost use Rattle.std.specs.Prelude.{◌≡◌, ◌≤◌, ◌==◌, option_map, length, count_by, IfOk};
ghost use Rattle.asm_text.specs.Source.{source_of};
ghost use Rattle.asm_places.specs.Names.{functions_in};
ghost use Rattle.rv_asm.specs.Checking.{Checks, IsChecked, refused_of};
ghost use Rattle.rv_asm.specs.Passes.{entry_of, is_function_name, final_pass as final_pass_of, last_line as last_line_of, fault_of};

use crate::passes::{at_line, first_pass, second_pass};
use asm_places::{all_functions, contains, first_far, is_open};
use asm_text::{AsmFault, AsmRule, Item, LineFault, Statement, read};
use sh_types::{Items, NoMemory};
use std::alloc::Global;

/// The name of the first `.entry`.
#[tactic(auto, unfolding(crate::specs::Passes::entry_of))]
pub fn entry_name(items: &[Item]) -> Option<&[u8]>
    ensures { option_map (λ n. n.now) result ≡ entry_of items.now }
{
    for item in items {
        if let Statement::Entry { name } = &item.statement {
            return Some(name.as_slice());
        }
    }
    None
}

fn is_entry_there(alloc: Global, items: &[Item]) -> Result<bool, NoMemory>
    ensures { IfOk result (λ there. there ≡ is_function_name (functions_in items.now) (entry_of items.now)) }
{
    match entry_name(items) {
        None => Ok(false),
        Some(name) => {
            let functions = all_functions(alloc, items)?;
            Ok(contains(&functions, 0, name))
        }
    }
}

fn final_pass(alloc: Global, line: u32, items: &[Item]) -> Result<Option<LineFault>, NoMemory>
    ensures { IfOk result (λ fault. fault ≡ final_pass_of line items.now) }
{
    if is_open(items) {
        return Ok(Some(LineFault {
            line,
            rule: AsmRule::Open,
        }));
    }
    if is_entry_there(alloc, items)? {
        return Ok(None);
    }
    Ok(Some(LineFault {
        line,
        rule: AsmRule::Entry,
    }))
}

fn line_feeds(text: &[u8]) -> u32
    requires { length text.now ≤ 67108864 }
    ensures value { result ≡ count_by (λ c. c == 10) text.now }
    ensures small { result ≤ length text.now }
{
    let mut count = 0;
    for c in text {
        if *c == b'\n' {
            count += 1;
        }
    }
    count
}

/// The number of the last line.
#[tactic(auto, unfolding(crate::specs::Passes::last_line))]
pub fn last_line(text: &[u8]) -> u32
    requires { length text.now ≤ 67108864 }
    ensures { result ≡ last_line_of text.now }
{
    let count = line_feeds(text);
    if !text.is_empty() && text[text.len() - 1] == b'\n' {
        count
    } else {
        count + 1
    }
}

/// The statements of a source that has no fault; else its first fault, or want of memory.
#[tactic(auto, unfolding(crate::specs::Passes::fault_of))]
pub fn checked(alloc: Global, text: &[u8]) -> Result<Items<Item>, AsmFault>
    requires { length text.now ≤ 67108864 }
    ensures first { Checks result (fault_of text.now) (source_of text.now).items }
    ensures checked { IfOk result (λ items. IsChecked items) }
{
    let source = read(alloc, text)?;
    if let Some(fault) = first_pass(alloc, &source)? {
        return Err(refused(fault));
    }
    let items = source.items;
    if let Some(fault) = second_pass(alloc, items.as_slice())? {
        return Err(refused(fault));
    }
    if let Some(fault) = at_line(AsmRule::Range, first_far(alloc, items.as_slice())?) {
        return Err(refused(fault));
    }
    if let Some(fault) = final_pass(alloc, last_line(text), items.as_slice())? {
        return Err(refused(fault));
    }
    Ok(items)
}

fn refused(fault: LineFault) -> AsmFault
    ensures { result ≡ refused_of fault }
{
    AsmFault::Line {
        line: fault.line,
        rule: fault.rule,
    }
}
