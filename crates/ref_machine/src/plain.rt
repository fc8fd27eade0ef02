// SPDX-License-Identifier: Apache-2.0
//! The machine, as its users see it.
ghost use Rattle.std.specs.Prelude.{◌≡◌, ℕ, List, ◌-◌, ◌<◌, ◌≤◌, ◌^◌, [], ◌∷◌, true, IfOk, OnOk, OnErr};
ghost use Rattle.sh_machines.specs.Fine.{IsFine};
ghost use Rattle.sh_machines.specs.PlainSerial.{is_over, plain_list, plain_turns, written_turns};
ghost use Rattle.sh_types.specs.Image.{sizes_of};
ghost use Rattle.sh_types.specs.Sized.{IsSized};
ghost use Rattle.ref_machine.specs.Refusal.{Answers, refusal};
ghost use Rattle.ref_machine.specs.Standing.{IsPart, after, opening, run_of, whole};
ghost use Rattle.thread_step.specs.Numbered.{IsWorded};
ghost use Rattle.plain_memory.specs.Laid.{AreApart, AreFull};

use crate::answers::PlainNo;
use crate::making::first_state;
use crate::single::step_one;
use crate::state::State;
use crate::turns::run;
use plain_memory::PlainMemory;
use sh_types::{Bytes, End, Image, NoMemory};
use std::alloc::Global;
use std::fmt::{self, Debug, Formatter};
use std::marker::Model;
use thread_step::Code;

/// The machine that never moves, of an image and an input. Contracts see what it holds, and speak of its run: the image,
/// the state of the unmoved machine, and how many instructions were executed.
#[derive(Drop)]
pub struct Plain {
    code: Code,
    state: State,
    memory: PlainMemory,
}

impl Debug for Plain {
    fn fmt<W: fmt::Write>(&self, f: &mut Formatter<W>) -> fmt::Result {
        f.debug_struct("Plain").finish_non_exhaustive()
    }
}

impl Model for Plain {
    ghost use Rattle.std.specs.Prelude.{drop};
    ghost use Rattle.ref_machine.specs.Standing.{Held, IsPlain};

    ghost Value = { Held };

    ghost view = { λ p. record { image = p.code; memory = p.memory; threads = p.state.threads.items; unread = drop p.state.read p.state.input; output = p.state.output.items; count = p.state.count; end = p.state.end } };

    ghost invariant = { λ p. IsPlain p.code p.state p.memory };
}

impl Plain {
    /// The machine of the image before its first instruction, with room for as many harts as there may be.
    pub fn new(alloc: Global, image: Image, input: Bytes) -> Result<Plain, NoMemory>
        requires fine { IsFine image }
        requires sized { IsSized (sizes_of image) }
        requires worded { IsWorded image }
        requires apart { AreApart image.regions }
        requires full { AreFull image.regions }
        ensures { IfOk result (λ p. run_of p ≡ opening image input) }
    {
        let memory = PlainMemory::new(alloc, &image.regions)?;
        let state = first_state(alloc, &image, input)?;
        let code = Code::new(alloc, image)?;
        Ok(Plain {
            code,
            state,
            memory,
        })
    }

    /// One instruction of a hart. An Err leaves the run where it stood: memory was refused, the run has ended, or it has
    /// not and no hart of this number is live.
    pub fn step(&mut self, hart: u32) -> Result<(), PlainNo>
        requires { self.old.count < 2 ^ 64 - 1 }
        ensures ok { OnOk result (run_of self.new ≡ after (hart ∷ []) (run_of self.old)) }
        ensures answer { Answers result (refusal (run_of self.old).state hart) }
        ensures err { OnErr result (run_of self.new ≡ run_of self.old) }
    {
        step_one(&self.code, &mut self.state, &mut self.memory, hart)
    }

    /// Turns in the serial order, of at most `quantum` instructions, until the run ends or `steps` instructions were
    /// executed in all. Err only where memory is refused; the first of these instructions are executed then.
    pub fn run(&mut self, quantum: u32, steps: u64) -> Result<(), NoMemory>
        requires quantum { 1 ≤ quantum }
        requires steps { self.old.count ≤ steps }
        ensures ok { OnOk result (run_of self.new ≡ after (written_turns (plain_turns self.old.image quantum steps self.old.count (run_of self.old).state)) (run_of self.old)) }
        ensures plain { OnOk result ((input : List ℕ) → run_of self.old ≡ opening self.old.image input → run_of self.new ≡ whole self.old.image input (plain_list self.old.image input quantum steps)) }
        ensures done { OnOk result (is_over steps self.new.count (run_of self.new).state ≡ true) }
        ensures err { OnErr result (IsPart (written_turns (plain_turns self.old.image quantum steps self.old.count (run_of self.old).state)) (run_of self.old) (run_of self.new)) }
    {
        run(
            &self.code,
            &mut self.state,
            &mut self.memory,
            quantum,
            steps,
        )
    }

    /// How the run ended, if it has.
    pub fn end(&self) -> Option<End>
        ensures { result ≡ self.now.end }
    {
        self.state.end
    }

    /// How many instructions were executed.
    pub fn count(&self) -> u64
        ensures { result ≡ self.now.count }
    {
        self.state.count
    }

    /// All that the guest wrote.
    pub fn output(&self) -> &[u8]
        ensures { result.now ≡ self.now.output }
    {
        self.state.output.as_slice()
    }
}
