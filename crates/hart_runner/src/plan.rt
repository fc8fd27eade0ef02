// SPDX-License-Identifier: Apache-2.0
//! How a run is to go.
ghost use Rattle.std.specs.Prelude.{◌≡◌, ◌≤◌};
ghost use Rattle.sh_machines.specs.Serial.{turn_limit};
ghost use Rattle.hart_runner.specs.Plans.{schedule_of};

/// How a run is to go: instructions between publications, instructions in a turn at most, and in all, and threads.
#[derive(Clone, Copy, Debug, PartialEq, Eq)]
pub struct Plan {
    pub period: u64,
    pub quantum: u32,
    pub steps: u64,
    pub workers: u32,
}

/// How many instructions the next turn may have.
pub fn limit_at(plan: &Plan, count: u64) -> u64
    requires period { 1 ≤ plan.now.period }
    requires few { count ≤ plan.now.steps }
    ensures { result ≡ turn_limit (schedule_of plan.now) count }
{
    let left = plan.steps - count;
    let ahead = plan.period - count % plan.period;
    u64::from(plan.quantum).min(left.min(ahead))
}
