// SPDX-License-Identifier: Apache-2.0
//! The parts of the source that are the same whatever the number is. Each is added by a function of its own, so that no
//! proof above reads its bytes.
ghost use Rattle.std.specs.Prelude.{◌≡◌, ◌++◌, IfOk, OnOk};
ghost use Rattle.guest_text.specs.Guest.{start_text, work_begin, work_end, mix_text, table_text, room_text};

use sh_types::Bytes;
use std::alloc::{AllocError, Global};

/// The entry function.
const START: &[u8] = b".entry start
.func start
li a0, 0
la a1, buf
li a2, 16384
li a7, 63
ecall
la t0, len
sd a0, 0(t0)
li s0, 1
more:
la a0, work
mv a1, s0
la t0, stk
slli t1, s0, 12
add a2, t0, t1
li a3, 0
li a7, 2000
ecall
addi s0, s0, 1
li t0, 4
bne s0, t0, more
li a0, 0
call work
li s0, 1
wait:
mv a0, s0
li a7, 2001
ecall
beqz a0, wait
addi s0, s0, 1
li t0, 4
bne s0, t0, wait
li a0, 1
la a1, sums
li a2, 32
li a7, 64
ecall
li a0, 0
li a7, 93
ecall
.endfunc
";

/// The work on a quarter of the bytes, up to the load of the next one.
const WORK_BEGIN: &[u8] = b".func work
addi sp, sp, -48
sd ra, 40(sp)
sd s0, 32(sp)
sd s1, 24(sp)
sd s2, 16(sp)
sd s3, 8(sp)
mv s3, a0
la t0, len
ld t1, 0(t0)
mul s0, s3, t1
srli s0, s0, 2
addi t2, s3, 1
mul s1, t2, t1
srli s1, s1, 2
li s2, 0
again:
beq s0, s1, done
la t0, buf
add t0, t0, s0
lbu t1, 0(t0)
";

/// The work from the remainder on.
const WORK_END: &[u8] = b"remu t2, t1, t2
slli t2, t2, 3
la t3, tab
add t3, t3, t2
ld t3, 0(t3)
add a0, s2, t1
jalr ra, 0(t3)
mv s2, a0
addi s0, s0, 1
j again
done:
la t0, sums
slli t1, s3, 3
add t0, t0, t1
sd s2, 0(t0)
ld ra, 40(sp)
ld s0, 32(sp)
ld s1, 24(sp)
ld s2, 16(sp)
ld s3, 8(sp)
addi sp, sp, 48
ret
.endfunc
";

/// The function that all those of the table call.
const MIX: &[u8] = b".func mix
srli t0, a0, 7
xor a0, a0, t0
ret
.endfunc
";

/// The name of the table.
const TABLE: &[u8] = b"tab:\n";

/// The data behind the table.
const ROOM: &[u8] = b"len:
.quad 0
sums:
.zero 32
stk:
.zero 12288
buf:
.zero 16384
";

/// A text that begins with the entry function.
#[tactic(auto, unfolding(crate::specs::Guest::start_text))]
pub fn begun(alloc: Global) -> Result<Bytes, AllocError>
    ensures { IfOk result (λ text. text ≡ start_text) }
{
    Bytes::from_slice(alloc, START)
}

/// Adds the work up to the load of the next byte.
#[tactic(auto, unfolding(crate::specs::Guest::work_begin))]
pub fn put_work_begin(text: &mut Bytes) -> Result<(), AllocError>
    ensures { OnOk result (text.new ≡ text.old ++ work_begin) }
{
    text.extend_from_slice(WORK_BEGIN)
}

/// Adds the work from the remainder on.
#[tactic(auto, unfolding(crate::specs::Guest::work_end))]
pub fn put_work_end(text: &mut Bytes) -> Result<(), AllocError>
    ensures { OnOk result (text.new ≡ text.old ++ work_end) }
{
    text.extend_from_slice(WORK_END)
}

/// Adds the function that all those of the table call.
#[tactic(auto, unfolding(crate::specs::Guest::mix_text))]
pub fn put_mix(text: &mut Bytes) -> Result<(), AllocError>
    ensures { OnOk result (text.new ≡ text.old ++ mix_text) }
{
    text.extend_from_slice(MIX)
}

/// Adds the name of the table.
#[tactic(auto, unfolding(crate::specs::Guest::table_text))]
pub fn put_table(text: &mut Bytes) -> Result<(), AllocError>
    ensures { OnOk result (text.new ≡ text.old ++ table_text) }
{
    text.extend_from_slice(TABLE)
}

/// Adds the data behind the table.
#[tactic(auto, unfolding(crate::specs::Guest::room_text))]
pub fn put_room(text: &mut Bytes) -> Result<(), AllocError>
    ensures { OnOk result (text.new ≡ text.old ++ room_text) }
{
    text.extend_from_slice(ROOM)
}
