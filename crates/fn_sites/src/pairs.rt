// SPDX-License-Identifier: Apache-2.0
//! The classes of JALR, which with an AUIPC before it may be a call or a tail of two words (RISC-V psABI,
//! "Relocations", R_RISCV_CALL and R_RISCV_CALL_PLT).
ghost use Rattle.std.specs.Prelude.{◌≡◌, ◌<◌, ◌==◌, List, Some, length};
ghost use Rattle.sh_types.specs.declared.code.Pair.{Pair};
ghost use Rattle.sh_types.specs.declared.relocs.Reloc.{Reloc};
ghost use Rattle.sh_machines.specs.Class as class;
ghost use Rattle.sh_machines.specs.Kind.{opcode_of};
ghost use Rattle.fn_sites.specs.Body.{IsBody, is_led as is_led_of, source};
ghost use Rattle.fn_sites.specs.Index.{Tells};
ghost use Rattle.fn_sites.specs.Sorts.{jalr_of};

use crate::body::{Body, bad};
use crate::jumps::address_of;
use crate::records::is_call_record;
use crate::search::is_among;
use crate::sorts::{Sort, sort_of};
use fn_lookup::{named_by, started_at};
use rv_decode::decode;
use rv_table::{Instr, Op};
use sh_types::{Reloc, Rule, Site};

#[tactic(auto, using(crate::proofs::Sorting::is_auipc_by))]
fn is_auipc(op: Op) -> bool
    ensures { result ≡ (opcode_of op == 0x17) }
{
    match sort_of(op) {
        Sort::Auipc => true,
        _ => false,
    }
}

/// Whether the word before is an AUIPC into the register that the JALR goes by, which is not x0.
fn makes_pair(before: Option<Instr>, instr: &Instr) -> bool
    ensures { result ≡ class.makes_pair before instr.now }
{
    match before {
        None => false,
        Some(before) => is_auipc(before.op) && before.rd != 0 && before.rd == instr.rs1,
    }
}

/// The instruction of the word before.
#[tactic(auto, using(crate::proofs::Before::word_there))]
fn word_before(body: &Body<'_>, number: usize) -> Option<Instr>
    requires { number < length body.now.words.now }
    ensures { (relocs : List Reloc) (labels : List Pair) → result ≡ class.word_before (source body.now relocs labels) number }
{
    if number == 0 {
        None
    } else {
        decode(body.words[number - 1])
    }
}

/// The record on the word before.
#[tactic(auto, using(crate::proofs::Before::record_there))]
fn record_before(body: &Body<'_>, number: usize) -> Option<Reloc>
    requires body { IsBody body.now }
    requires number { number < length body.now.words.now }
    ensures { (relocs : List Reloc) (labels : List Pair) → Tells body.now.index.now relocs labels → result ≡ class.pair_before (source body.now relocs labels) number }
{
    if number == 0 {
        None
    } else {
        body.index.record(address_of(body, number - 1))
    }
}

/// Whether a jump, a branch or a label of the function leads to the word.
fn is_led(body: &Body<'_>, number: usize) -> bool
    requires body { IsBody body.now }
    requires number { number < length body.now.words.now }
    ensures { (relocs : List Reloc) (labels : List Pair) → Tells body.now.index.now relocs labels → result ≡ is_led_of (source body.now relocs labels) number }
{
    is_among(body.targets, address_of(body, number))
        || body.index.has_label(body.func, 4 * (number as u32))
}

/// Whether the word and the one before are a pair that nothing leads between.
fn is_whole_pair(body: &Body<'_>, number: usize, instr: &Instr) -> bool
    requires body { IsBody body.now }
    requires number { number < length body.now.words.now }
    ensures { (relocs : List Reloc) (labels : List Pair) → Tells body.now.index.now relocs labels → result ≡ class.is_whole_pair (source body.now relocs labels) number instr.now }
{
    makes_pair(word_before(body, number), instr) && !is_led(body, number)
}

fn pair_site(rd: u8, func: Option<u32>) -> Site
    ensures { result ≡ class.pair_class rd func }
{
    match func {
        None => bad(Rule::CallTarget),
        Some(func) => {
            if rd == 1 {
                Site::DirectCall { func }
            } else {
                Site::DirectTail { func }
            }
        }
    }
}

/// The class of a JALR that is no part of a pair.
fn through_site(instr: &Instr) -> Site
    ensures { result ≡ class.through_class instr.now }
{
    if instr.rd == 0 && instr.rs1 == 1 {
        Site::ReturnLike
    } else if instr.rd == 0 {
        Site::IndirectTail
    } else {
        Site::IndirectCall
    }
}

/// The class of a JALR behind a word with a record.
fn behind_record(body: &Body<'_>, number: usize, instr: &Instr, reloc: &Reloc) -> Site
    requires body { IsBody body.now }
    requires number { number < length body.now.words.now }
    ensures { (relocs : List Reloc) (labels : List Pair) → Tells body.now.index.now relocs labels → result ≡ class.register_class (source body.now relocs labels) number instr.now (Some reloc.now) }
{
    if !is_call_record(reloc.kind) {
        through_site(instr)
    } else if is_whole_pair(body, number, instr) {
        pair_site(instr.rd, started_at(body.functions, named_by(reloc)))
    } else {
        bad(Rule::CallTarget)
    }
}

/// The class of a JALR whose rd is x0 or ra.
fn register_site(body: &Body<'_>, number: usize, instr: &Instr) -> Site
    requires body { IsBody body.now }
    requires number { number < length body.now.words.now }
    ensures { (relocs : List Reloc) (labels : List Pair) → Tells body.now.index.now relocs labels → result ≡ class.register_class (source body.now relocs labels) number instr.now (class.pair_before (source body.now relocs labels) number) }
{
    match record_before(body, number) {
        None => through_site(instr),
        Some(reloc) => behind_record(body, number, instr, &reloc),
    }
}

/// The class of a JALR that is a word of the function.
pub fn jalr_word(body: &Body<'_>, number: usize, instr: &Instr) -> Site
    requires body { IsBody body.now }
    requires number { number < length body.now.words.now }
    ensures { (relocs : List Reloc) (labels : List Pair) → Tells body.now.index.now relocs labels → result ≡ jalr_of (source body.now relocs labels) number instr.now }
{
    if instr.rd == 0 || instr.rd == 1 {
        register_site(body, number, instr)
    } else {
        bad(Rule::LinkRegister)
    }
}
