// SPDX-License-Identifier: Apache-2.0
//! Instructions of one hart, as one event.
ghost use Rattle.std.specs.Prelude.{◌≡◌, ◌+◌, ◌<◌, ◌≤◌, ◌^◌, ◌++◌, [], ◌∷◌, IfOk, IfErr, OnErr};
ghost use Rattle.sh_machines.specs.Event.{Allowed, written};
ghost use Rattle.sh_types.specs.Fetch.{Tells};
ghost use Rattle.sh_machines.specs.Serial.{run_length};
ghost use Rattle.sh_machines.specs.Unmoved.{unmoved_run};
ghost use Rattle.hart_turns.specs.Ran.{IsRun, asked_in};
ghost use Rattle.shuf_machine.specs.Meant.{meant, IsMachine};
ghost use Rattle.shuf_machine.specs.Refusal.{IsCause, run_no};
ghost use Rattle.shuf_machine.specs.Run.{setting_of, shuffled_run};

use crate::admitting::admit;
use crate::answers::{MachineNo, No};
use crate::code::Code;
use hart_turns::{LiveCode, State, run_hart};
use sh_law::runs_have_their_length;
use sh_types::{Event, Fetch};

/// Why no instruction of the hart can be run now, if so.
fn refusal(code: &Code, state: &State, at: u32) -> Option<No>
    ensures { result ≡ run_no (meant code.now state.now) at }
{
    let _code = code;
    if state.end.is_some() {
        return Some(No::RunEnded);
    }
    match state.harts.get(at as usize) {
        Some(hart) if hart.live => None,
        _ => Some(No::NoHart { hart: at }),
    }
}

/// Runs instructions of a hart, as an event.
pub fn run<F: Fetch>(
    code: &Code,
    state: &mut State,
    journal: &mut Vec<Event>,
    at: u32,
    limit: u64,
    fetch: &mut F,
) -> Result<u64, MachineNo>
    requires is { IsMachine code.now state.old journal.old.items }
    requires some { 1 ≤ limit }
    requires count { (shuffled_run code.now.image code.now.origin journal.old.items).count + limit < 2 ^ 64 }
    ensures kept { IsMachine code.now state.new journal.new.items }
    ensures ok { IfOk result (λ n. journal.new.items ≡ journal.old.items ++ Event.Run at n ∷ []) }
    ensures length { IfOk result (λ n. n ≡ run_length code.now.image at limit (unmoved_run code.now.image code.now.origin.input (written journal.old.items))) }
    ensures run { IfOk result (λ n. IsRun (setting_of code.now.image code.now.origin) at limit n (shuffled_run code.now.image code.now.origin journal.old.items) (shuffled_run code.now.image code.now.origin journal.new.items)) }
    ensures allowed { IfOk result (λ n. Allowed (setting_of code.now.image code.now.origin) (Event.Run at n) (shuffled_run code.now.image code.now.origin journal.old.items)) }
    ensures err { OnErr result (journal.new.items ≡ journal.old.items) }
    ensures cause { IfErr result (λ e. IsCause e (run_no (shuffled_run code.now.image code.now.origin journal.old.items) at)) }
    ensures asked { IfOk result (λ n. Tells (F.asked fetch.old) (asked_in (setting_of code.now.image code.now.origin) at limit n (shuffled_run code.now.image code.now.origin journal.old.items)) (F.asked fetch.new)) }
{
    admit(journal, refusal(code, state, at))?;
    runs_have_their_length();
    let live = LiveCode {
        image: &code.image,
        input: &code.origin.input,
        seed: &code.origin.seed,
        epochs: &code.epochs,
        newest: &code.newest,
        older: &code.older,
        wiped: code.wiped,
    };
    match run_hart(&live, state, at, limit, fetch) {
        Ok(count) => {
            journal.push_reserved(Event::Run { hart: at, count });
            Ok(count)
        }
        Err(_) => Err(MachineNo::NoMemory),
    }
}
