// SPDX-License-Identifier: Apache-2.0
//! For each word of an image the task that it is.
ghost use Rattle.std.specs.Prelude.{◌/◌, IfOk, IfSome, length, slice_index};
ghost use Rattle.std.specs.Option.{IfNone};
ghost use Rattle.sh_types.specs.Image.{sizes_of};
ghost use Rattle.thread_step.specs.Listed.{AreListed, AreTasks, StandsAt};
ghost use Rattle.thread_step.specs.Numbered.{IsNumbered};
ghost use Rattle.thread_step.specs.declared.tasks.Task.{Task};

use crate::reading::size;
use crate::sites::task_at;
use crate::tasks::Task;
use sh_types::{Image, Items, Pair};
use std::alloc::{AllocError, Global};

/// The tasks of the words of a function; `numbers` are those that words have as literals.
fn tasks_of(
    alloc: Global,
    image: &Image,
    numbers: &[Items<u32>],
    func: u32,
) -> Result<Items<Task>, AllocError>
    requires { IsNumbered image.now numbers.now }
    ensures { IfOk result (λ tasks. AreTasks image.now func (slice_index (sizes_of image.now) func / 4) tasks) }
{
    let count = size(image, func) / 4;
    let mut tasks = Vec::with_capacity(alloc, count as usize)?;
    for word in 0..count {
        let at = Pair {
            func,
            off: 4 * word,
        };
        let task = task_at(image, numbers, at);
        tasks.push(task)?;
    }
    Ok(Items::from_vec(tasks))
}

/// The tasks of the words of all functions; `numbers` are those that words have as literals. Err only where memory is
/// refused.
pub fn listed_tasks(
    alloc: Global,
    image: &Image,
    numbers: &[Items<u32>],
) -> Result<Items<Items<Task>>, AllocError>
    requires { IsNumbered image.now numbers.now }
    ensures { IfOk result (λ tasks. AreListed image.now (length (sizes_of image.now)) tasks) }
{
    let mut all = Vec::with_capacity(alloc, image.functions.len())?;
    for func in 0..image.functions.len() {
        let tasks = tasks_of(alloc, image, numbers, func as u32)?;
        all.push(tasks)?;
    }
    Ok(Items::from_vec(all))
}

/// The task in lists of tasks, one list for each function, at a pair; None where no word begins, and past the lists.
#[inline(always)]
pub fn listed(tasks: &[Items<Task>], at: Pair) -> Option<&Task>
    ensures is { IfSome result (λ task. StandsAt tasks.now at task.now) }
    ensures none { IfNone result ((task : Task) → StandsAt tasks.now at task → ⊥) }
{
    if at.off % 4 != 0 {
        return None;
    }
    match tasks.get(at.func as usize) {
        Some(list) => list.as_slice().get((at.off / 4) as usize),
        None => None,
    }
}
