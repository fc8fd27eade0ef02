// SPDX-License-Identifier: Apache-2.0
//! The layouts that are live, and their copies.
ghost use Rattle.std.specs.Prelude.{◌≡◌, IfNone, IfSome};
ghost use Rattle.sh_law.specs.Sound.{IsOn};
ghost use Rattle.sh_machines.specs.Copy.{copy_of};
ghost use Rattle.shuf_machine.specs.Meant.{IsCode, IsMade};
ghost use Rattle.shuf_machine.specs.Run.{setting_of};

use crate::code::Code;
use hart_turns::Prepared;
use sh_types::CodeCopy;

/// The layout with this number and its copy; None exactly where that layout is not live.
pub fn prepared_on(code: &Code, number: u64) -> Option<&Prepared>
    requires { IsCode code.now }
    ensures none { IfNone result (IsOn code.now.epochs.newest code.now.epochs.older number → ⊥) }
    ensures live { IfSome result (λ p. IsOn code.now.epochs.newest code.now.epochs.older number) }
    ensures made { IfSome result (λ p. IsMade code.now.image code.now.origin number p.now) }
{
    let newest = code.epochs.newest();
    if number == newest {
        return Some(&code.newest);
    }
    match &code.older {
        Some(older) if number == newest - 1 => Some(older),
        _ => None,
    }
}

/// The copy of the layout with this number; None exactly where that layout is not live.
pub fn copy_on(code: &Code, number: u64) -> Option<&CodeCopy>
    requires { IsCode code.now }
    ensures none { IfNone result (IsOn code.now.epochs.newest code.now.epochs.older number → ⊥) }
    ensures live { IfSome result (λ c. IsOn code.now.epochs.newest code.now.epochs.older number) }
    ensures copy { IfSome result (λ c. c.now ≡ copy_of code.now.image ((setting_of code.now.image code.now.origin).layout_at number)) }
{
    match prepared_on(code, number) {
        Some(prepared) => Some(&prepared.copy),
        None => None,
    }
}
