// SPDX-License-Identifier: Apache-2.0
//! What a paced journal says of the events that come next.
ghost use Rattle.std.specs.Prelude.{◌≡◌, ℕ, List};
ghost use Rattle.sh_types.specs.declared.runs.Event.{Event};
ghost use Rattle.sh_machines.specs.Event.{state_after, is_allowed, IsLegalIn};
ghost use Rattle.sh_machines.specs.Fine.{IsSetting};
ghost use Rattle.sh_machines.specs.Next.{may_come};
ghost use Rattle.sh_machines.specs.Pace.{IsPaced, pace_after};
ghost use Rattle.sh_machines.specs.Shuffled.{Setting};

/// Behind a paced journal that is legal an event is allowed exactly where the unmoved machine and the bookkeeping of the
/// pace say that it may come, whatever the layouts are.
pub fn paced_events_are_allowed()
    ensures { (o : Setting) (period : ℕ) (events : List Event) (e : Event) → IsSetting o → IsLegalIn o events → IsPaced o.image o.input period events → is_allowed o e (state_after o events) ≡ may_come o.image e (pace_after o.image o.input events) }
{}
