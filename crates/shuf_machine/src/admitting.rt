// SPDX-License-Identifier: Apache-2.0
//! What an event needs before it happens.
ghost use Rattle.std.specs.Prelude.{◌≡◌, ◌<◌, None, IfErr, OnOk, vec_len, vec_capacity};
ghost use Rattle.shuf_machine.specs.Refusal.{IsCause};

use crate::answers::{MachineNo, No};
use sh_types::Event;

/// Makes room for one more event where there is no reason against it. The events stay as they are.
pub fn admit(journal: &mut Vec<Event>, refusal: Option<No>) -> Result<(), MachineNo>
    ensures items { journal.new.items ≡ journal.old.items }
    ensures none { OnOk result (refusal ≡ None) }
    ensures room { OnOk result (vec_len journal.new < vec_capacity journal.new) }
    ensures cause { IfErr result (λ e. IsCause e refusal) }
{
    if let Some(why) = refusal {
        return Err(MachineNo::NotEnabled { why });
    }
    if journal.reserve(1).is_err() {
        return Err(MachineNo::NoMemory);
    }
    Ok(())
}
