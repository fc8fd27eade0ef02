// SPDX-License-Identifier: Apache-2.0
//! The mnemonics and directives of the source language.
ghost use Rattle.std.specs.Prelude.{◌≡◌};
ghost use Rattle.asm_words.specs.Tables.{named};
ghost use Rattle.asm_words.specs.Mnemonics.{base_rows, product_rows, low_word_rows, register_rows, immediate_rows, memory_rows, store_rows, branch_rows, upper_rows, atomic_word_rows, atomic_double_rows, atomic_rows, reserve_rows, bare_rows, plain_rows, naming_rows, value_rows, instruction_shape, shape_of};

use crate::shapes::{Naming, Plain, Shape};
use rv_table::Op;

/// The sum, comparison, shift or instruction on bits that has this name.
#[tactic(auto, unfolding(crate::specs::Mnemonics::base_rows))]
fn base_op(name: &str) -> Option<Op>
    ensures { result ≡ named base_rows name.now }
{
    let found = match name {
        "add" => Op::Add,
        "sub" => Op::Sub,
        "sll" => Op::Sll,
        "slt" => Op::Slt,
        "sltu" => Op::Sltu,
        "xor" => Op::Xor,
        "srl" => Op::Srl,
        "sra" => Op::Sra,
        "or" => Op::Or,
        "and" => Op::And,
        _ => return None,
    };
    Some(found)
}

/// The product or quotient of two registers that has this name.
#[tactic(auto, unfolding(crate::specs::Mnemonics::product_rows))]
fn product_op(name: &str) -> Option<Op>
    ensures { result ≡ named product_rows name.now }
{
    let found = match name {
        "mul" => Op::Mul,
        "mulh" => Op::Mulh,
        "mulhsu" => Op::Mulhsu,
        "mulhu" => Op::Mulhu,
        "div" => Op::Div,
        "divu" => Op::Divu,
        "rem" => Op::Rem,
        "remu" => Op::Remu,
        _ => return None,
    };
    Some(found)
}

/// The instruction on the low words of registers that has this name.
#[tactic(auto, unfolding(crate::specs::Mnemonics::low_word_rows))]
fn low_word_op(name: &str) -> Option<Op>
    ensures { result ≡ named low_word_rows name.now }
{
    let found = match name {
        "addw" => Op::Addw,
        "subw" => Op::Subw,
        "sllw" => Op::Sllw,
        "srlw" => Op::Srlw,
        "sraw" => Op::Sraw,
        "mulw" => Op::Mulw,
        "divw" => Op::Divw,
        "divuw" => Op::Divuw,
        "remw" => Op::Remw,
        "remuw" => Op::Remuw,
        _ => return None,
    };
    Some(found)
}

/// The instruction of three registers that has this name.
#[tactic(auto, using(crate::proofs::Tables::register_parts))]
fn register_op(name: &str) -> Option<Op>
    ensures { result ≡ named register_rows name.now }
{
    if let Some(op) = base_op(name) {
        return Some(op);
    }
    if let Some(op) = product_op(name) {
        return Some(op);
    }
    low_word_op(name)
}

/// The instruction of two registers and a number that has this name.
#[tactic(auto, unfolding(crate::specs::Mnemonics::immediate_rows))]
fn immediate_op(name: &str) -> Option<Op>
    ensures { result ≡ named immediate_rows name.now }
{
    let found = match name {
        "addi" => Op::Addi,
        "slti" => Op::Slti,
        "sltiu" => Op::Sltiu,
        "xori" => Op::Xori,
        "ori" => Op::Ori,
        "andi" => Op::Andi,
        "slli" => Op::Slli,
        "srli" => Op::Srli,
        "srai" => Op::Srai,
        "addiw" => Op::Addiw,
        "slliw" => Op::Slliw,
        "srliw" => Op::Srliw,
        "sraiw" => Op::Sraiw,
        _ => return None,
    };
    Some(found)
}

/// The instruction that takes `rd, number(rs1)` that has this name.
#[tactic(auto, unfolding(crate::specs::Mnemonics::memory_rows))]
fn memory_op(name: &str) -> Option<Op>
    ensures { result ≡ named memory_rows name.now }
{
    let found = match name {
        "lb" => Op::Lb,
        "lh" => Op::Lh,
        "lw" => Op::Lw,
        "ld" => Op::Ld,
        "lbu" => Op::Lbu,
        "lhu" => Op::Lhu,
        "lwu" => Op::Lwu,
        "jalr" => Op::Jalr,
        _ => return None,
    };
    Some(found)
}

/// The store that has this name.
#[tactic(auto, unfolding(crate::specs::Mnemonics::store_rows))]
fn store_op(name: &str) -> Option<Op>
    ensures { result ≡ named store_rows name.now }
{
    let found = match name {
        "sb" => Op::Sb,
        "sh" => Op::Sh,
        "sw" => Op::Sw,
        "sd" => Op::Sd,
        _ => return None,
    };
    Some(found)
}

/// The branch that has this name.
#[tactic(auto, unfolding(crate::specs::Mnemonics::branch_rows))]
fn branch_op(name: &str) -> Option<Op>
    ensures { result ≡ named branch_rows name.now }
{
    let found = match name {
        "beq" => Op::Beq,
        "bne" => Op::Bne,
        "blt" => Op::Blt,
        "bge" => Op::Bge,
        "bltu" => Op::Bltu,
        "bgeu" => Op::Bgeu,
        _ => return None,
    };
    Some(found)
}

/// The instruction of a register and 20 bits that has this name.
#[tactic(auto, unfolding(crate::specs::Mnemonics::upper_rows))]
fn upper_op(name: &str) -> Option<Op>
    ensures { result ≡ named upper_rows name.now }
{
    let found = match name {
        "lui" => Op::Lui,
        "auipc" => Op::Auipc,
        _ => return None,
    };
    Some(found)
}

/// The atomic instruction on a word that has this name.
#[tactic(auto, unfolding(crate::specs::Mnemonics::atomic_word_rows))]
fn atomic_word_op(name: &str) -> Option<Op>
    ensures { result ≡ named atomic_word_rows name.now }
{
    let found = match name {
        "sc.w" => Op::ScW,
        "amoswap.w" => Op::AmoswapW,
        "amoadd.w" => Op::AmoaddW,
        "amoxor.w" => Op::AmoxorW,
        "amoand.w" => Op::AmoandW,
        "amoor.w" => Op::AmoorW,
        "amomin.w" => Op::AmominW,
        "amomax.w" => Op::AmomaxW,
        "amominu.w" => Op::AmominuW,
        "amomaxu.w" => Op::AmomaxuW,
        _ => return None,
    };
    Some(found)
}

/// The atomic instruction on a doubleword that has this name.
#[tactic(auto, unfolding(crate::specs::Mnemonics::atomic_double_rows))]
fn atomic_double_op(name: &str) -> Option<Op>
    ensures { result ≡ named atomic_double_rows name.now }
{
    let found = match name {
        "sc.d" => Op::ScD,
        "amoswap.d" => Op::AmoswapD,
        "amoadd.d" => Op::AmoaddD,
        "amoxor.d" => Op::AmoxorD,
        "amoand.d" => Op::AmoandD,
        "amoor.d" => Op::AmoorD,
        "amomin.d" => Op::AmominD,
        "amomax.d" => Op::AmomaxD,
        "amominu.d" => Op::AmominuD,
        "amomaxu.d" => Op::AmomaxuD,
        _ => return None,
    };
    Some(found)
}

/// The atomic instruction that takes `rd, rs2, (rs1)` that has this name.
#[tactic(auto, using(crate::proofs::Tables::atomic_parts))]
fn atomic_op(name: &str) -> Option<Op>
    ensures { result ≡ named atomic_rows name.now }
{
    if let Some(op) = atomic_word_op(name) {
        return Some(op);
    }
    atomic_double_op(name)
}

/// The load-reserved that has this name.
#[tactic(auto, unfolding(crate::specs::Mnemonics::reserve_rows))]
fn reserve_op(name: &str) -> Option<Op>
    ensures { result ≡ named reserve_rows name.now }
{
    let found = match name {
        "lr.w" => Op::LrW,
        "lr.d" => Op::LrD,
        _ => return None,
    };
    Some(found)
}

/// The instruction without operands that has this name.
#[tactic(auto, unfolding(crate::specs::Mnemonics::bare_rows))]
fn bare_op(name: &str) -> Option<Op>
    ensures { result ≡ named bare_rows name.now }
{
    let found = match name {
        "fence" => Op::Fence,
        "ecall" => Op::Ecall,
        "ebreak" => Op::Ebreak,
        _ => return None,
    };
    Some(found)
}

/// The instruction by another name, or the directive, that has this name.
#[tactic(auto, unfolding(crate::specs::Mnemonics::plain_rows))]
fn plain_directive(name: &str) -> Option<Plain>
    ensures { result ≡ named plain_rows name.now }
{
    let found = match name {
        "nop" => Plain::Nop,
        "mv" => Plain::Move,
        "ret" => Plain::Return,
        "jr" => Plain::ToRegister,
        "li" => Plain::Literal,
        ".endfunc" => Plain::EndFunction,
        ".raw" => Plain::Raw,
        ".nops" => Plain::Nops,
        ".zero" => Plain::Zero,
        ".align" => Plain::Align,
        _ => return None,
    };
    Some(found)
}

/// What takes a name and that has this name.
#[tactic(auto, unfolding(crate::specs::Mnemonics::naming_rows))]
fn naming_directive(name: &str) -> Option<Naming>
    ensures { result ≡ named naming_rows name.now }
{
    let found = match name {
        ".entry" => Naming::Entry,
        ".func" => Naming::Function,
        "jal" => Naming::Jump,
        "j" => Naming::ToLabel,
        "la" => Naming::Address,
        "call" => Naming::Call,
        "tail" => Naming::Tail,
        "beqz" => Naming::BranchZero { op: Op::Beq },
        "bnez" => Naming::BranchZero { op: Op::Bne },
        _ => return None,
    };
    Some(found)
}

/// The values that has this name.
#[tactic(auto, unfolding(crate::specs::Mnemonics::value_rows))]
fn values(name: &str) -> Option<Shape>
    ensures { result ≡ named value_rows name.now }
{
    let found = match name {
        ".byte" => Shape::Values {
            width: 1,
            names: false,
        },
        ".word" => Shape::Values {
            width: 4,
            names: true,
        },
        ".quad" => Shape::Values {
            width: 8,
            names: true,
        },
        ".ascii" => Shape::Ascii,
        _ => return None,
    };
    Some(found)
}

#[tactic(auto, unfolding(crate::specs::Mnemonics::instruction_shape))]
fn instruction(name: &str) -> Option<Shape>
    ensures { result ≡ instruction_shape name.now }
{
    if let Some(op) = register_op(name) {
        return Some(Shape::Plain {
            shape: Plain::Register { op },
        });
    }
    if let Some(op) = immediate_op(name) {
        return Some(Shape::Plain {
            shape: Plain::Immediate { op },
        });
    }
    if let Some(op) = memory_op(name) {
        return Some(Shape::Plain {
            shape: Plain::Memory { op },
        });
    }
    if let Some(op) = store_op(name) {
        return Some(Shape::Plain {
            shape: Plain::Store { op },
        });
    }
    if let Some(op) = upper_op(name) {
        return Some(Shape::Plain {
            shape: Plain::Upper { op },
        });
    }
    if let Some(op) = atomic_op(name) {
        return Some(Shape::Plain {
            shape: Plain::Atomic { op },
        });
    }
    if let Some(op) = reserve_op(name) {
        return Some(Shape::Plain {
            shape: Plain::Reserve { op },
        });
    }
    if let Some(op) = bare_op(name) {
        return Some(Shape::Plain {
            shape: Plain::Bare { op },
        });
    }
    if let Some(op) = branch_op(name) {
        return Some(Shape::Naming {
            shape: Naming::Branch { op },
        });
    }
    None
}

#[tactic(auto, unfolding(crate::specs::Mnemonics::shape_of))]
fn shape(name: &str) -> Option<Shape>
    ensures { result ≡ shape_of name.now }
{
    if let Some(shape) = instruction(name) {
        return Some(shape);
    }
    if let Some(shape) = plain_directive(name) {
        return Some(Shape::Plain { shape });
    }
    if let Some(shape) = naming_directive(name) {
        return Some(Shape::Naming { shape });
    }
    values(name)
}

/// What the mnemonic or directive takes; None where there is none of this name.
#[tactic(auto, using(crate::proofs::Words::no_shape))]
pub fn shape_named(word: &[u8]) -> Option<Shape>
    ensures { result ≡ shape_of word.now }
{
    match str::from_utf8(word) {
        Ok(name) => shape(name),
        Err(_) => None,
    }
}
