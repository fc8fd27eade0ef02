// SPDX-License-Identifier: Apache-2.0
//! What an environment call asks of the machine.
ghost use Rattle.std.specs.Prelude.{◌≡◌, ◌+◌, ◌<◌, ◌≤◌, ◌^◌, ◌++◌, true, Some, [], drop, length, slice_get, IfOk, OnOk, OnErr};
ghost use Rattle.sh_types.specs.Limits.{most_harts};
ghost use Rattle.plain_memory.specs.Access.{plain_in};
ghost use Rattle.thread_acts.specs.Done.{meant};
ghost use Rattle.token_lookup.specs.Rising.{Rises};
ghost use Rattle.ref_machine.specs.Calling.{answer_by, answer_for, call_at, lives_of, more_of, seen_of, with_output};
ghost use Rattle.ref_machine.specs.Meant.{IsCode, IsMapped, state_of};

use crate::state::State;
use guest_calls::{CallDid, Host, environment};
use plain_memory::Contents;
use sh_types::NoMemory;
use std::mem;
use thread_acts::Thread;
use thread_step::Code;
use token_lookup::row_at;

/// What a call reads: so many of the input's next bytes, to be put from an address on, by the hart with a number.
#[derive(Clone, Copy)]
struct Taken {
    by: u32,
    address: u64,
    length: u64,
}

/// The hart that a call starts: by which hart, at which function, with which numbers in a0, sp and tp.
#[derive(Clone, Copy)]
struct Begun {
    by: u32,
    func: u32,
    argument: u64,
    stack: u64,
    thread: u64,
}

/// What a call comes to: register a0 gets the value; so many of the input's next bytes are put from an address on; a
/// hart starts at a function, with these numbers in a0, sp and tp; the hart, or the whole run, ends with a code; a byte
/// of a return word was to be passed on.
#[derive(Clone, Copy)]
pub enum Answer {
    Value {
        value: u64,
    },
    Reads {
        address: u64,
        length: u64,
    },
    Starts {
        func: u32,
        argument: u64,
        stack: u64,
        thread: u64,
    },
    ExitsHart {
        code: u8,
    },
    ExitsRun {
        code: u8,
    },
    Leaks,
}

/// What calls see of the machine: its harts, memory and rows, the input that was not read, and the output. What a call
/// reads and starts is kept until it is over.
#[derive(Drop)]
struct Guest<'a, M: Contents> {
    threads: &'a [Thread],
    memory: &'a M,
    rows: &'a [u32],
    input: &'a [u8],
    output: Vec<u8>,
    taken: Option<Taken>,
    begun: Option<Begun>,
    ghost few: { length threads.now ≤ most_harts },
    ghost rises: { Rises rows.now },
}

impl<M: Contents> Host for Guest<'_, M> {
    ghost seen = { λ g. seen_of g.threads.now (M.regions g.memory.now) (plain_in (M.contents g.memory.now)) g.rows.now g.input.now g.output.items g.taken g.begun };

    fn readable(&self, address: u64, length: u64) -> bool {
        self.memory.readable(address, length)
    }

    fn writable(&self, address: u64, length: u64) -> bool {
        self.memory.writable(address, length)
    }

    fn holds_return(&self, address: u64, length: u64) -> bool {
        self.memory.holds_return(address, length)
    }

    fn put_output(&mut self, address: u64, length: u64) -> Result<(), NoMemory> {
        self.memory.append(&mut self.output, address, length)
    }

    fn take_input(&mut self, hart: u32, address: u64, length: u64) -> u64 {
        let length = length.min(self.input.len() as u64);
        self.taken = Some(Taken {
            by: hart,
            address,
            length,
        });
        length
    }

    fn find_row(&self, token: u64) -> Option<u32> {
        row_at(self.rows, token)
    }

    fn started(&self) -> u32 {
        self.threads.len() as u32 + u32::from(self.begun.is_some())
    }

    fn start(&mut self, by: u32, func: u32, argument: u64, stack: u64, thread: u64) -> u32 {
        let started = self.threads.len() as u32;
        self.begun = Some(Begun {
            by,
            func,
            argument,
            stack,
            thread,
        });
        started
    }

    fn ended(&self, hart: u32) -> Option<bool> {
        match self.threads.get(hart as usize) {
            Some(thread) => Some(!thread.live),
            None if self.begun.is_some() && hart as usize == self.threads.len() => Some(false),
            None => None,
        }
    }
}

/// What the call comes to, by what it did.
fn told(did: CallDid, taken: Option<Taken>, begun: Option<Begun>) -> Answer
    ensures { result ≡ answer_by did taken begun }
{
    match did {
        CallDid::Answer { value } => match (taken, begun) {
            (Some(taken), _) => Answer::Reads {
                address: taken.address,
                length: taken.length,
            },
            (None, Some(begun)) => Answer::Starts {
                func: begun.func,
                argument: begun.argument,
                stack: begun.stack,
                thread: begun.thread,
            },
            (None, None) => Answer::Value { value },
        },
        CallDid::ExitHart { code } => Answer::ExitsHart { code },
        CallDid::ExitAll { code } => Answer::ExitsRun { code },
        CallDid::Leak => Answer::Leaks,
    }
}

/// The input behind the bytes that were read.
pub fn unread(input: &[u8], read: usize) -> &[u8]
    ensures rest { result.now ≡ drop read input.now }
    ensures fits { read + length result.now < 2 ^ 64 }
{
    let read = read.min(input.len());
    &input[read..]
}

/// Asks the environment what the call of a live hart comes to. What it writes joins the output, which stays as it is
/// where memory is refused.
pub fn ask<M: Contents>(
    code: &Code,
    state: &mut State,
    memory: &M,
    thread: &Thread,
) -> Result<Answer, NoMemory>
    requires code { IsCode code.now }
    requires mapped { IsMapped code.now (M.regions memory.now) }
    requires few { length state.old.threads.items ≤ most_harts }
    requires live { slice_get (lives_of state.old.threads.items) thread.now.number ≡ Some true }
    ensures answer { IfOk result (λ a. a ≡ answer_for (call_at code.now (state_of state.old (M.contents memory.now)) (meant thread.now))) }
    ensures state { OnOk result (state_of state.new (M.contents memory.now) ≡ with_output (state_of state.old (M.contents memory.now)) (state.old.output.items ++ more_of (call_at code.now (state_of state.old (M.contents memory.now)) (meant thread.now)))) }
    ensures err { OnErr result (state_of state.new (M.contents memory.now) ≡ state_of state.old (M.contents memory.now)) }
    ensures threads { state.new.threads ≡ state.old.threads }
    ensures count { state.new.count ≡ state.old.count }
{
    let regs = &thread.regs;
    let args = [
        regs[10], regs[11], regs[12], regs[13], regs[14], regs[15], regs[16], regs[17],
    ];
    let nothing = Vec::new(*state.output.allocator());
    let output = mem::replace(&mut state.output, nothing);
    let mut guest = Guest {
        threads: &state.threads,
        memory,
        rows: code.image().rows.as_slice(),
        input: unread(state.input.as_slice(), state.read),
        output,
        taken: None,
        begun: None,
    };
    let did = environment(&mut guest, thread.number, &args);
    let Guest {
        output,
        taken,
        begun,
        ..
    } = guest;
    state.output = output;
    Ok(told(did?, taken, begun))
}
