// SPDX-License-Identifier: Apache-2.0
//! The rows of the manual's listings, one for each mnemonic (RISC-V Unprivileged ISA, "RV32/64G Instruction Set
//! Listings").

/// Where the fields of a word lie: the manual's formats U, J, B, I, S and R ("Base Instruction Formats"); an I with a
/// shift amount of six bits (RV64I, "Integer Register-Immediate Instructions") or of five (its W forms); an R with aq
/// and rl above rs2, and the same with rs2 0 for LR ("A" extension, "Specifying Ordering of Atomic Instructions");
/// FENCE, whose upper twelve bits are kept as they are (RV32I, "Memory Ordering Instructions"); and the words of ECALL
/// and EBREAK, which have no field (RV32I, "Environment Call and Breakpoints").
#[derive(Clone, Copy, PartialEq, Eq, Debug)]
pub enum Form {
    Upper,
    Jump,
    Branch,
    Immediate,
    Storing,
    Register,
    Shift6,
    Shift5,
    Atomic,
    Reserving,
    Fencing,
    Whole,
}

/// A row of the listings: the opcode (bits 6 to 0), funct3 (bits 14 to 12), and the number that stands above the fields
/// of the form: funct7 for an R and a shift by five bits, bits 31 to 26 for a shift by six, bits 31 to 27 for an atomic,
/// bits 31 to 20 for ECALL and EBREAK. A number that the form lacks is 0.
#[derive(Clone, Copy, PartialEq, Eq, Debug)]
pub struct Row {
    pub form: Form,
    pub opcode: u32,
    pub funct3: u32,
    pub above: u32,
}
