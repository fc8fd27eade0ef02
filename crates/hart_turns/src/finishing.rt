// SPDX-License-Identifier: Apache-2.0
//! Instructions that end a hart or the run.
ghost use Rattle.std.specs.Prelude.{◌≡◌, ◌-◌, ◌<◌, ◌^◌, ◌%◌, None, true, false, vec_len};
ghost use Rattle.guest_mem.specs.Held.{regions_of};
ghost use Rattle.sh_machines.specs.Event.{can_run};
ghost use Rattle.sh_machines.specs.Need.{Quits, Traps, Leaks};
ghost use Rattle.sh_types.specs.Place.{whose_of, pair_or_first};
ghost use Rattle.sh_types.specs.Limits.{most_harts};
ghost use Rattle.sh_machines.specs.Shuffled.{any_live as any_live_of, first_code as first_code_of, hart_ends, stopped};
ghost use Rattle.hart_turns.specs.Meant.{meant, IsLive, IsMapped, setting_of};
ghost use Rattle.hart_turns.specs.Next.{IsNext, IsStopped, next_outcome};

use crate::going::current;
use crate::state::{LiveCode, Prepared, State};
use sh_types::{End, Hart, Pair, Trap};

/// The pair at an address; where no pair has it, the first pair.
pub fn pair_at(from: &Prepared, address: u64) -> Pair
    ensures { result ≡ pair_or_first (whose_of from.now.layout address) }
{
    match from.layout.whose(address) {
        Some(pair) => pair,
        None => Pair { func: 0, off: 0 },
    }
}

fn any_live(harts: &[Hart]) -> bool
    ensures { result ≡ any_live_of harts.now }
{
    for hart in harts {
        if hart.live {
            return true;
        }
    }
    false
}

fn first_code(harts: &[Hart]) -> u8
    ensures { result ≡ first_code_of harts.now }
{
    match harts.first() {
        Some(hart) => hart.code,
        None => 0,
    }
}

/// Ends the run by an instruction.
pub fn stop(code: &LiveCode<'_>, state: &mut State, end: End)
    requires { state.old.count < 2 ^ 64 - 1 }
    ensures meant { meant code.now state.new ≡ stopped (meant code.now state.old) end }
    ensures regions { regions_of state.new.memory ≡ regions_of state.old.memory }
{
    let _code = code;
    state.count += 1;
    state.end = Some(end);
}

/// Ends a hart by an instruction; its return words become zero, and the run ends with the last hart. `hart` is the
/// hart with this number.
pub fn end_hart(code: &LiveCode<'_>, state: &mut State, at: u32, hart: Hart, exit: u8)
    requires count { state.old.count < 2 ^ 64 - 1 }
    requires at { at < vec_len state.old.harts }
    requires number { hart.number < most_harts }
    requires end { state.old.end ≡ None }
    ensures meant { meant code.now state.new ≡ hart_ends (meant code.now state.old) at hart exit }
    ensures regions { regions_of state.new.memory ≡ regions_of state.old.memory }
{
    let _code = code;
    state.harts[at as usize] = Hart {
        live: false,
        code: exit,
        ..hart
    };
    state.memory.clear_owned(hart.number);
    state.count += 1;
    if !any_live(&state.harts) {
        state.end = Some(End::Exit {
            code: first_code(&state.harts),
        });
    }
}

/// The low byte of a number, which is the code of an end.
fn low_byte(number: u64) -> u8
    ensures { result ≡ number % 256 }
{
    (number % 256) as u8
}

/// The hart returns to the root, which ends it.
#[cold]
pub fn quit(code: &LiveCode<'_>, from: &Prepared, state: &mut State, at: u32)
    requires code { IsLive code.now }
    requires mapped { IsMapped code.now.image.now state.old.memory }
    requires here { IsNext code.now from.now (meant code.now state.old) at }
    requires can { can_run (meant code.now state.old) at ≡ true }
    requires next { next_outcome (setting_of code.now) at (meant code.now state.old) ≡ Quits }
    requires count { state.old.count < 2 ^ 64 - 1 }
    ensures done { IsStopped (setting_of code.now) at (meant code.now state.old) (meant code.now state.new) }
    ensures mapped { IsMapped code.now.image.now state.new.memory }
{
    let _from = from;
    let hart = current(code, state, at);
    end_hart(code, state, at, hart, low_byte(hart.regs[10]));
}

/// The run ends with a trap.
#[cold]
pub fn trap(
    code: &LiveCode<'_>,
    from: &Prepared,
    state: &mut State,
    at: u32,
    kind: Trap,
    value: u64,
)
    requires code { IsLive code.now }
    requires mapped { IsMapped code.now.image.now state.old.memory }
    requires here { IsNext code.now from.now (meant code.now state.old) at }
    requires can { can_run (meant code.now state.old) at ≡ true }
    requires next { next_outcome (setting_of code.now) at (meant code.now state.old) ≡ Traps kind value }
    requires count { state.old.count < 2 ^ 64 - 1 }
    ensures done { IsStopped (setting_of code.now) at (meant code.now state.old) (meant code.now state.new) }
    ensures mapped { IsMapped code.now.image.now state.new.memory }
{
    let hart = current(code, state, at);
    let pair = pair_at(from, hart.pc);
    stop(
        code,
        state,
        End::Trapped {
            kind,
            hart: at,
            pair,
            value,
        },
    );
}

/// The run ends because a return address was used as data.
#[cold]
pub fn leak(code: &LiveCode<'_>, from: &Prepared, state: &mut State, at: u32)
    requires code { IsLive code.now }
    requires mapped { IsMapped code.now.image.now state.old.memory }
    requires here { IsNext code.now from.now (meant code.now state.old) at }
    requires can { can_run (meant code.now state.old) at ≡ true }
    requires next { next_outcome (setting_of code.now) at (meant code.now state.old) ≡ Leaks }
    requires count { state.old.count < 2 ^ 64 - 1 }
    ensures done { IsStopped (setting_of code.now) at (meant code.now state.old) (meant code.now state.new) }
    ensures mapped { IsMapped code.now.image.now state.new.memory }
{
    let hart = current(code, state, at);
    let pair = pair_at(from, hart.pc);
    stop(code, state, End::Leak { hart: at, pair });
}
