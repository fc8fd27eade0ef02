// SPDX-License-Identifier: Apache-2.0
//! Known words, as clauses of a function that does nothing.
ghost use Rattle.std.specs.Prelude.{◌≡◌, pos, negsuc};
ghost use Rattle.rv_table.specs.Instruction.{IsInstr, word_of};
ghost use Rattle.rv_table.specs.MachineForm.{IsXInstr, x_word_of};
ghost use Rattle.rv_table.specs.declared.instructions.Op.TheVariants.{Beq, Jal, Sd};
ghost use Rattle.rv_table.specs.declared.instructions.XInstr.TheVariants.{Lit, Sra, Lra, Tjalr};

/// Words that the definitions give, and fields that are just within their range or just out of it.
#[tactic(auto, unfolding(rv_table::specs::Instruction::row_of))]
pub fn known_words()
    ensures save { x_word_of (Sra (pos 8)) ≡ 0x0011042b }
    ensures restore { x_word_of (Lra (pos 8)) ≡ 0x008110ab }
    ensures tail { x_word_of (Tjalr 1 28 (pos 0)) ≡ 0x000e20ab }
    ensures literal { x_word_of (Lit 11 0) ≡ 0x0000058b }
    ensures last_literal { IsXInstr (Lit 11 1048575) }
    ensures no_literal { IsXInstr (Lit 11 1048576) → ⊥ }
    ensures store { word_of (record { op = Sd; rd = 0; rs1 = 2; rs2 = 1; imm = pos 8 }) ≡ 0x00113423 }
    ensures branch { word_of (record { op = Beq; rd = 0; rs1 = 10; rs2 = 11; imm = pos 8 }) ≡ 0x00b50463 }
    ensures back { word_of (record { op = Jal; rd = 0; rs1 = 0; rs2 = 0; imm = negsuc 3 }) ≡ 0xffdff06f }
    ensures far { word_of (record { op = Jal; rd = 0; rs1 = 0; rs2 = 0; imm = pos 1048574 }) ≡ 0x7ffff06f }
    ensures reached { IsInstr (record { op = Jal; rd = 1; rs1 = 0; rs2 = 0; imm = pos 1048574 }) }
    ensures too_far { IsInstr (record { op = Jal; rd = 1; rs1 = 0; rs2 = 0; imm = pos 1048576 }) → ⊥ }
    ensures odd { IsInstr (record { op = Jal; rd = 1; rs1 = 0; rs2 = 0; imm = pos 1048573 }) → ⊥ }
{}
