// SPDX-License-Identifier: Apache-2.0
//! The source of a guest.
ghost use Rattle.std.specs.Prelude.{◌≡◌, ◌≤◌, ◌++◌, IfOk, OnOk, length, string_bytes};
ghost use Rattle.guest_text.specs.Guest.{each, divisor_line, work_text, function_text, row_line, data_text, guest_text};

use crate::blocks;
use sh_types::{Bytes, NoMemory};
use std::alloc::{AllocError, Global};

/// The line that loads the number, by which the remainder of a byte is taken.
#[tactic(auto, unfolding(crate::specs::Guest::divisor_line))]
fn divisor(alloc: Global, number: u32) -> Result<String, AllocError>
    ensures { IfOk result (λ line. string_bytes line ≡ divisor_line number) }
{
    format!(in alloc; "li t2, {number}\n")
}

/// Adds the function that works on a quarter of the bytes.
#[tactic(auto, unfolding(crate::specs::Guest::work_text))]
fn put_work(alloc: Global, text: &mut Bytes, number: u32) -> Result<(), AllocError>
    ensures { OnOk result (text.new ≡ text.old ++ work_text number) }
{
    let divisor = divisor(alloc, number)?;
    blocks::put_work_begin(text)?;
    text.extend_from_slice(divisor.as_bytes())?;
    blocks::put_work_end(text)?;
    Ok(())
}

/// The function of the table with this number.
#[tactic(auto, unfolding(crate::specs::Guest::function_text))]
fn function(alloc: Global, number: u32) -> Result<String, AllocError>
    ensures { IfOk result (λ lines. string_bytes lines ≡ function_text number) }
{
    format!(in alloc;
        ".func g{number}
addi sp, sp, -16
sd ra, 8(sp)
slli t0, a0, 5
sub a0, t0, a0
li t0, {number}
add a0, a0, t0
call mix
ld ra, 8(sp)
addi sp, sp, 16
ret
.endfunc
"
    )
}

fn put_function(alloc: Global, text: &mut Bytes, number: u32) -> Result<(), AllocError>
    ensures { OnOk result (text.new ≡ text.old ++ function_text number) }
{
    let function = function(alloc, number)?;
    text.extend_from_slice(function.as_bytes())?;
    Ok(())
}

/// Adds the functions of the table, which are numbered from 0 on.
#[tactic(auto, using(crate::proofs::Each::each_none, crate::proofs::Each::each_more))]
fn put_functions(alloc: Global, text: &mut Bytes, count: u32) -> Result<(), AllocError>
    ensures { OnOk result (text.new ≡ text.old ++ each function_text count) }
{
    for number in 0..count {
        put_function(alloc, text, number)?;
    }
    Ok(())
}

/// The row of the function with this number.
#[tactic(auto, unfolding(crate::specs::Guest::row_line))]
fn row(alloc: Global, number: u32) -> Result<String, AllocError>
    ensures { IfOk result (λ line. string_bytes line ≡ row_line number) }
{
    format!(in alloc; ".quad g{number}\n")
}

fn put_row(alloc: Global, text: &mut Bytes, number: u32) -> Result<(), AllocError>
    ensures { OnOk result (text.new ≡ text.old ++ row_line number) }
{
    let row = row(alloc, number)?;
    text.extend_from_slice(row.as_bytes())?;
    Ok(())
}

/// Adds the rows of the table, in the order of the numbers.
#[tactic(auto, using(crate::proofs::Each::each_none, crate::proofs::Each::each_more))]
fn put_rows(alloc: Global, text: &mut Bytes, count: u32) -> Result<(), AllocError>
    ensures { OnOk result (text.new ≡ text.old ++ each row_line count) }
{
    for number in 0..count {
        put_row(alloc, text, number)?;
    }
    Ok(())
}

/// Adds the data.
#[tactic(auto, unfolding(crate::specs::Guest::data_text))]
fn put_data(alloc: Global, text: &mut Bytes, number: u32) -> Result<(), AllocError>
    ensures { OnOk result (text.new ≡ text.old ++ data_text number) }
{
    blocks::put_table(text)?;
    put_rows(alloc, text, number)?;
    blocks::put_room(text)?;
    Ok(())
}

/// The source of a guest of `number` + 3 functions, in the assembler's language, one statement a line. The guest reads
/// at most 16,384 bytes; four harts work on a quarter of them each, and call a function for each byte, by a pointer in a
/// table of `number` rows; the sums that the four come to, of eight bytes each, are the output, and the guest exits with
/// 0. Err only where memory is refused.
#[tactic(auto, unfolding(crate::specs::Guest::guest_text), using(crate::proofs::Sizes::guest_size))]
pub fn guest_of(alloc: Global, number: u32) -> Result<Bytes, NoMemory>
    requires some { 1 ≤ number }
    requires few { number ≤ 1000 }
    ensures is { IfOk result (λ text. text ≡ guest_text number) }
    ensures short { IfOk result (λ text. length text ≤ 1000000) }
{
    let mut text = blocks::begun(alloc)?;
    put_work(alloc, &mut text, number)?;
    put_functions(alloc, &mut text, number)?;
    blocks::put_mix(&mut text)?;
    put_data(alloc, &mut text, number)?;
    Ok(text)
}
