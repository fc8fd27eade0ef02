// SPDX-License-Identifier: Apache-2.0
//! What mnemonics and directives take.
use rv_table::Op;

/// What takes registers and numbers alone.
#[derive(Clone, Copy, Debug, PartialEq, Eq)]
pub enum Plain {
    Register { op: Op },
    Immediate { op: Op },
    Memory { op: Op },
    Store { op: Op },
    Upper { op: Op },
    Atomic { op: Op },
    Reserve { op: Op },
    Bare { op: Op },
    Nop,
    Move,
    Return,
    ToRegister,
    Literal,
    EndFunction,
    Raw,
    Nops,
    Zero,
    Align,
}

/// What takes a name.
#[derive(Clone, Copy, Debug, PartialEq, Eq)]
pub enum Naming {
    Branch { op: Op },
    BranchZero { op: Op },
    Entry,
    Function,
    Jump,
    ToLabel,
    Address,
    Call,
    Tail,
}

/// What a mnemonic or directive takes. Values are of `width` bytes, and may be names where `names`.
#[derive(Clone, Copy, Debug, PartialEq, Eq)]
pub enum Shape {
    Plain { shape: Plain },
    Naming { shape: Naming },
    Values { width: u8, names: bool },
    Ascii,
}
