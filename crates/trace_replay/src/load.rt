//! The load: a trace drawn from a seed, made over one kind of cluster, and the summary of its answers.

ghost use Rattle.std.specs.Prelude.{◌≡◌, ◌≤◌, IfOk, IsTrue};
ghost use Rattle.flat_policy.specs.Policy.Machine.{empty_machine};
ghost use Rattle.flat_policy.specs.Runs.LoadTrace.{Load, load_setup};
ghost use Rattle.trace_machine.specs.Machines.{IsMachine, Means};
ghost use Rattle.trace_replay.specs.LoadAnswers.{MakesLoad};
ghost use Rattle.trace_replay.specs.Statuses.{HasWriteCause, PutsExactly};

mod counts;
mod drawing;
mod stepping;
mod summary;

use crate::ReplayStatus;
use flat_policy::cluster::Cluster;
use flat_policy::setup::{BuildError, Setup};
use ports::{Sink, put_all};
use std::alloc::{AllocError, Global};
use trace_machine::Machine;

/// Makes the load of a seed: so many steps, at most 200,000, over one kind of cluster, and writes its
/// summary. `Done` where the sink took the whole summary, `WriteFault` where it failed in it, and
/// `OutOfMemory` where memory ran out; then nothing is written. No other status comes.
pub(crate) fn load<C: Cluster, K: Sink>(
    alloc: Global,
    seed: u32,
    steps: u32,
    sink: &mut K,
) -> ReplayStatus
    requires few { steps ≤ 200000 }
    ensures makes { MakesLoad seed steps (K.taken sink.old) (K.taken sink.new) result }
    ensures cause { HasWriteCause (K.faults sink.old) (K.faults sink.new) result }
    ensures later { K.faults sink.old ≤ K.faults sink.new }
    ensures exact { IsTrue K.is_exact → PutsExactly (K.faults sink.old) (K.faults sink.new) (K.is_failing sink.new) result }
{
    let Ok(text) = load_text::<C>(alloc, seed, steps) else {
        return ReplayStatus::OutOfMemory;
    };
    match put_all(sink, &text) {
        Ok(()) => ReplayStatus::Done,
        Err(_) => ReplayStatus::WriteFault,
    }
}

/// The summary of the load, made with a machine of its own. An error is want of memory.
fn load_text<C: Cluster>(alloc: Global, seed: u32, steps: u32) -> Result<Vec<u8>, AllocError>
    requires few { steps ≤ 200000 }
    ensures { IfOk result (λ text. text.items ≡ Load seed steps) }
{
    let mut machine: Machine<C> = Machine::new(alloc, load_setup(alloc)?)?;
    let text = run_text(alloc, &mut machine, seed, steps);
    machine.end();
    text
}

/// The summary of the load, made with a machine that took no step yet.
fn run_text<C: Cluster>(
    alloc: Global,
    machine: &mut Machine<C>,
    seed: u32,
    steps: u32,
) -> Result<Vec<u8>, AllocError>
    requires begins { Means machine.old (empty_machine load_setup) }
    requires setup { machine.old.parts.setup ≡ load_setup }
    requires new { machine.old.steps ≡ 0 }
    requires few { steps ≤ 200000 }
    ensures machine { IsMachine machine.new }
    ensures few { machine.new.steps ≤ 200000 }
    ensures text { IfOk result (λ text. text.items ≡ Load seed steps) }
{
    let so_far = stepping::run(machine, seed, steps)?;
    summary::summary(alloc, seed, steps, &so_far.counts, machine.queued())
}

/// The setup of the load: four processors and two slower ones, eight groups, 256 threads.
fn load_setup(alloc: Global) -> Result<Setup, AllocError>
    ensures { IfOk result (λ setup. setup ≡ load_setup) }
{
    let built = Setup::build(
        alloc,
        &[[4, 1000], [2, 400]],
        &[[0, 1, 8000, 1, 48], [1, 0, 4000, 1, 63]],
        &[[0, 0, 0, 0, 1, 1]; 8],
        256,
        1,
    );
    match built {
        Ok(setup) => Ok(setup),
        Err(BuildError::Memory) => Err(AllocError),
        Err(BuildError::Range(_)) => unreachable!(),
    }
}

#[cfg(test)]
mod tests;
