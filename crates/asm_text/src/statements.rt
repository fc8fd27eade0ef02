// SPDX-License-Identifier: Apache-2.0
//! Statements of the source language as data.
use rv_table::Op;
use sh_types::{Bytes, SymbolName};

/// A statement, or a part of one that stands for itself: a label, and each value of `.byte`, `.word` and `.quad`. A
/// number of 2^64 or more, which is out of each range, is kept as 2^64, and one of -2^64 or less as -2^64.
#[derive(Debug, Drop)]
pub enum Statement {
    /// `name:`
    Label {
        name: SymbolName,
    },
    /// `.entry name`
    Entry {
        name: SymbolName,
    },
    /// `.func name`
    Function {
        name: SymbolName,
    },
    /// `.endfunc`
    EndFunction,
    /// `.raw value`
    Raw {
        value: i128,
    },
    /// `.nops count`
    Nops {
        count: i128,
    },
    /// A number of `.byte`, `.word` or `.quad`, with its width in bytes.
    Value {
        width: u8,
        value: i128,
    },
    /// A name in `.word` or `.quad`, with its width in bytes.
    Reference {
        width: u8,
        name: SymbolName,
    },
    /// `.zero count`
    Zero {
        count: i128,
    },
    /// `.ascii`, with the bytes of its string.
    Ascii {
        bytes: Bytes,
    },
    /// `.align to`
    Align {
        to: i128,
    },
    /// An instruction whose operands are registers and a number. A field that it lacks is 0.
    Plain {
        op: Op,
        rd: u8,
        rs1: u8,
        rs2: u8,
        imm: i128,
    },
    /// `lui` or `auipc`, with the number of its 20 bits.
    Upper {
        op: Op,
        rd: u8,
        value: i128,
    },
    /// A branch.
    Branch {
        op: Op,
        rs1: u8,
        rs2: u8,
        label: SymbolName,
    },
    /// `jal rd, target`
    Jump {
        rd: u8,
        target: SymbolName,
    },
    /// `li rd, value`
    Literal {
        rd: u8,
        value: i128,
    },
    /// `la rd, name`
    Address {
        rd: u8,
        name: SymbolName,
    },
    /// `call name`
    Call {
        name: SymbolName,
    },
    /// `tail name`
    Tail {
        name: SymbolName,
    },
}

/// A statement and the number of its line, from 1 on.
#[derive(Debug, Drop)]
pub struct Item {
    pub line: u32,
    pub statement: Statement,
}
