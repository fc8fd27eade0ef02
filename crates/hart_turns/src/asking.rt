// SPDX-License-Identifier: Apache-2.0
//! What an environment call asks of the machine.
ghost use Rattle.std.specs.Prelude.{◌≡◌, ◌+◌, ◌<◌, ◌≤◌, ◌^◌, ◌++◌, true, Some, [], drop, length, slice_get, IfOk, OnOk, OnErr};
ghost use Rattle.sh_types.specs.Limits.{most_harts};
ghost use Rattle.guest_mem.specs.Held.{plain_of, regions_of};
ghost use Rattle.hart_acts.specs.Fits.{Rises};
ghost use Rattle.hart_turns.specs.Calling.{answer_by, answer_for, call_at, lives_of, more_of, seen_of, with_output};
ghost use Rattle.hart_turns.specs.Meant.{meant, IsLive, IsMapped, setting_of};

use crate::state::{LiveCode, State};
use crate::transfers::append;
use guest_calls::{CallDid, Host, environment};
use guest_mem::GuestMem;
use hart_step::row_at;
use sh_types::{Hart, NoMemory};
use std::mem;

/// What a call reads: so many of the input's next bytes, to be put from an address on, by the hart with a number.
#[derive(Clone, Copy)]
struct Taken {
    by: u32,
    address: u64,
    length: u64,
}

/// The hart that a call starts: by which hart, at which function, with which numbers in a0, sp and tp.
#[derive(Clone, Copy)]
struct Begun {
    by: u32,
    func: u32,
    argument: u64,
    stack: u64,
    thread: u64,
}

/// What a call comes to: register a0 gets the value; so many of the input's next bytes are put from an address on; a
/// hart starts at a function, with these numbers in a0, sp and tp; the hart, or the whole run, ends with a code; a byte
/// of a return word was to be passed on.
#[derive(Clone, Copy)]
pub enum Answer {
    Value {
        value: u64,
    },
    Reads {
        address: u64,
        length: u64,
    },
    Starts {
        func: u32,
        argument: u64,
        stack: u64,
        thread: u64,
    },
    ExitsHart {
        code: u8,
    },
    ExitsRun {
        code: u8,
    },
    Leaks,
}

/// What calls see of the machine: its harts, memory and rows, the input that was not read, and the output. What a call
/// reads and starts is kept until it is over.
#[derive(Drop)]
struct Guest<'a> {
    harts: &'a [Hart],
    memory: &'a GuestMem,
    rows: &'a [u32],
    input: &'a [u8],
    output: Vec<u8>,
    taken: Option<Taken>,
    begun: Option<Begun>,
    ghost few: { length harts.now ≤ most_harts },
    ghost rises: { Rises rows.now },
}

impl Host for Guest<'_> {
    ghost seen = { λ g. seen_of g.harts.now (regions_of g.memory.now) (plain_of g.memory.now) g.rows.now g.input.now g.output.items g.taken g.begun };

    fn readable(&self, address: u64, length: u64) -> bool {
        self.memory.readable(address, length)
    }

    fn writable(&self, address: u64, length: u64) -> bool {
        self.memory.writable(address, length)
    }

    fn holds_return(&self, address: u64, length: u64) -> bool {
        self.memory.holds_return(address, length)
    }

    fn put_output(&mut self, address: u64, length: u64) -> Result<(), NoMemory> {
        append(self.memory, &mut self.output, address, length)
    }

    fn take_input(&mut self, hart: u32, address: u64, length: u64) -> u64 {
        let length = length.min(self.input.len() as u64);
        self.taken = Some(Taken {
            by: hart,
            address,
            length,
        });
        length
    }

    fn find_row(&self, token: u64) -> Option<u32> {
        row_at(self.rows, token)
    }

    fn started(&self) -> u32 {
        self.harts.len() as u32 + u32::from(self.begun.is_some())
    }

    fn start(&mut self, by: u32, func: u32, argument: u64, stack: u64, thread: u64) -> u32 {
        let started = self.harts.len() as u32;
        self.begun = Some(Begun {
            by,
            func,
            argument,
            stack,
            thread,
        });
        started
    }

    fn ended(&self, hart: u32) -> Option<bool> {
        match self.harts.get(hart as usize) {
            Some(hart) => Some(!hart.live),
            None if self.begun.is_some() && hart as usize == self.harts.len() => Some(false),
            None => None,
        }
    }
}

/// What the call comes to, by what it did.
fn told(did: CallDid, taken: Option<Taken>, begun: Option<Begun>) -> Answer
    ensures { result ≡ answer_by did taken begun }
{
    match did {
        CallDid::Answer { value } => match (taken, begun) {
            (Some(taken), _) => Answer::Reads {
                address: taken.address,
                length: taken.length,
            },
            (None, Some(begun)) => Answer::Starts {
                func: begun.func,
                argument: begun.argument,
                stack: begun.stack,
                thread: begun.thread,
            },
            (None, None) => Answer::Value { value },
        },
        CallDid::ExitHart { code } => Answer::ExitsHart { code },
        CallDid::ExitAll { code } => Answer::ExitsRun { code },
        CallDid::Leak => Answer::Leaks,
    }
}

/// The input behind the bytes that were read.
pub fn unread<'a>(code: &LiveCode<'a>, read: usize) -> &'a [u8]
    ensures rest { result.now ≡ drop read code.now.input.now }
    ensures fits { read + length result.now < 2 ^ 64 }
{
    let input = code.input.as_slice();
    let read = read.min(input.len());
    &input[read..]
}

/// Asks the environment what the call of a live hart comes to. What it writes joins the output, which stays as it is
/// where memory is refused.
pub fn ask(code: &LiveCode<'_>, state: &mut State, hart: &Hart) -> Result<Answer, NoMemory>
    requires code { IsLive code.now }
    requires mapped { IsMapped code.now.image.now state.old.memory }
    requires few { length state.old.harts.items ≤ most_harts }
    requires live { slice_get (lives_of state.old.harts.items) hart.now.number ≡ Some true }
    ensures answer { IfOk result (λ a. a ≡ answer_for (call_at (setting_of code.now) (meant code.now state.old) hart.now)) }
    ensures meant { OnOk result (meant code.now state.new ≡ with_output (meant code.now state.old) ((meant code.now state.old).output ++ more_of (call_at (setting_of code.now) (meant code.now state.old) hart.now))) }
    ensures err { OnErr result (meant code.now state.new ≡ meant code.now state.old) }
    ensures harts { state.new.harts ≡ state.old.harts }
    ensures regions { regions_of state.new.memory ≡ regions_of state.old.memory }
{
    let regs = &hart.regs;
    let args = [
        regs[10], regs[11], regs[12], regs[13], regs[14], regs[15], regs[16], regs[17],
    ];
    let nothing = Vec::new(*state.output.allocator());
    let output = mem::replace(&mut state.output, nothing);
    let mut guest = Guest {
        harts: &state.harts,
        memory: &state.memory,
        rows: code.image.rows.as_slice(),
        input: unread(code, state.read),
        output,
        taken: None,
        begun: None,
    };
    let did = environment(&mut guest, hart.number, &args);
    let Guest {
        output,
        taken,
        begun,
        ..
    } = guest;
    state.output = output;
    Ok(told(did?, taken, begun))
}
