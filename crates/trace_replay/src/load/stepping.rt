//! The steps of a load, one and many.

ghost use Rattle.std.specs.Prelude.{◌≡◌, ◌<◌, ◌≤◌, ◌+◌, IfOk, IsTrue, OnErr, OnOk};
ghost use Rattle.flat_policy.specs.Policy.Machine.{MachineState, empty_machine, fits_step, hand_at};
ghost use Rattle.flat_policy.specs.Runs.LoadTrace.{load_act, load_after, load_setup, step_by_draw};
ghost use Rattle.trace_machine.specs.Machines.{IsMachine, Means};
ghost use Rattle.trace_replay.specs.LoadsSoFar.{FitsLoad, HasRun, TakesStep, count_total, load_in, tally_in};

use super::counts::Counts;
use super::drawing::{busy_act, drawn, free_act, kept_after, next_draw};
use flat_policy::cluster::Cluster;
use flat_policy::laws::{fitting_prefers_among, runs_stay_sound};
use sched_base::{Act, Step};
use std::alloc::AllocError;
use trace_machine::Machine;

/// The load so far, beside its machine: the draw's state, the name that sleeps, and the counts.
#[derive(Clone, Copy)]
pub(crate) struct LoadSoFar {
    pub draw: u64,
    pub kept: Option<u32>,
    pub counts: Counts,
}

/// The act of an actor, by what is left of the draw.
fn act<C: Cluster>(machine: &Machine<C>, so_far: &LoadSoFar, i: u32, actor: u8, q: u64) -> Act
    requires machine { IsMachine machine.now }
    requires setup { machine.now.parts.setup ≡ load_setup }
    requires actor { actor < 6 }
    ensures is { (g : MachineState) → Means machine.now g → result ≡ load_act (load_in so_far.now g) i actor q (hand_at g actor).thread }
    ensures fits { FitsLoad result }
{
    fitting_prefers_among();
    runs_stay_sound();
    match machine.hand(actor) {
        None => {
            let other = 1 - machine.setup().home(actor);
            free_act(i, q, machine.live(), other, so_far.kept)
        }
        Some(thread) => busy_act(q, &thread, so_far.kept),
    }
}

/// The step of a number, by the number drawn for it. The setup fits it.
fn step_by_draw<C: Cluster>(machine: &Machine<C>, so_far: &LoadSoFar, i: u32, r: u64) -> Step
    requires machine { IsMachine machine.now }
    requires setup { machine.now.parts.setup ≡ load_setup }
    requires few { i < 200000 }
    ensures is { (g : MachineState) → Means machine.now g → result ≡ step_by_draw (load_in so_far.now g) i r }
    ensures fits { IsTrue (fits_step load_setup result) }
{
    let actor = (r % 6) as u8;
    Step {
        moment: i as u64 * 50,
        actor,
        act: act(machine, so_far, i, actor, r / 6),
    }
}

/// Takes the step of a number, and tells the load after it. An error is want of memory, and then
/// the machine stays.
fn next<C: Cluster>(
    machine: &mut Machine<C>,
    so_far: &LoadSoFar,
    i: u32,
) -> Result<LoadSoFar, AllocError>
    requires machine { IsMachine machine.old }
    requires setup { machine.old.parts.setup ≡ load_setup }
    requires few { i < 200000 }
    requires steps { machine.old.steps ≤ i }
    requires counts { count_total (tally_in so_far.now.counts) ≤ 400000 }
    ensures takes { IfOk result (λ after. TakesStep i machine.old machine.new so_far.now after) }
    ensures err { OnErr result (machine.new ≡ machine.old) }
{
    let draw = next_draw(so_far.draw);
    let step = step_by_draw(machine, so_far, i, drawn(draw));
    let held = machine.hand(step.actor);
    let reply = machine.step(&step)?;
    Ok(LoadSoFar {
        draw,
        kept: kept_after(so_far.kept, &step.act, &held),
        counts: so_far.counts.and(&step.act, &reply.answer),
    })
}

/// Takes the first so many steps of the load of a seed, at most 200,000, with a machine that took
/// none yet. An error is want of memory.
pub(crate) fn run<C: Cluster>(
    machine: &mut Machine<C>,
    seed: u32,
    steps: u32,
) -> Result<LoadSoFar, AllocError>
    requires begins { Means machine.old (empty_machine load_setup) }
    requires setup { machine.old.parts.setup ≡ load_setup }
    requires new { machine.old.steps ≡ 0 }
    requires few { steps ≤ 200000 }
    ensures machine { IsMachine machine.new }
    ensures few { machine.new.steps ≤ 200000 }
    ensures run { IfOk result (λ so_far. HasRun seed steps machine.new so_far) }
{
    let mut so_far = LoadSoFar {
        draw: seed as u64,
        kept: None,
        counts: Counts::new(),
    };
    for i in 0..steps {
        so_far = next(machine, &so_far, i)?;
    }
    Ok(so_far)
}
