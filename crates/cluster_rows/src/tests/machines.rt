//! A machine over either kind of cluster.

ghost use Rattle.std.specs.Prelude.{◌≤◌, ◌<◌, ◌+◌, ◌^◌};
ghost use Rattle.trace_machine.specs.Machines.{IsMachine};

use cluster_queue::ClusterQueue;
use flat_policy::cluster::Cluster;
use flat_policy::setup::Setup;
use plain_cluster::PlainCluster;
use sched_base::{Act, Answer, Bucket, Step};
use std::alloc::Global;
use std::process::Abort;
use std::test::Fail;
use trace_machine::Machine;

/// Takes a step of actor 0 at the moment 5, where the setup fits it: its answer.
fn asked<K: Cluster>(machine: &mut Machine<K>, act: Act) -> Option<Answer>
    requires machine { IsMachine machine.old }
    requires few { machine.old.steps < 2 ^ 50 }
    ensures machine { IsMachine machine.new }
    ensures few { machine.new.steps ≤ machine.old.steps + 1 }
{
    let step = Step {
        moment: 5,
        actor: 0,
        act,
    };
    if !machine.setup().fits(&step) {
        return None;
    }
    match machine.step(&step) {
        Ok(reply) => Some(reply.answer),
        Err(_) => None,
    }
}

// A thread is made, enters and is selected, and none is selected while it is in a hand.
fn one_thread<K: Cluster>(rt: &impl Abort, alloc: Global) -> Result<(), Fail> {
    let setup = Setup::build(alloc, &[[1, 1000]], &[], &[[0; 6]], 8, 1)?;
    let mut machine: Machine<K> = Machine::new(alloc, setup)?;
    let make = Act::Make {
        name: 1,
        group: 0,
        bucket: Bucket::Fg,
        base: 31,
        bound: None,
    };
    let made = asked(&mut machine, make);
    let enter = Act::Enter {
        cluster: 0,
        head: false,
    };
    let entered = asked(&mut machine, enter);
    let selected = asked(&mut machine, Act::Select);
    let none = asked(&mut machine, Act::Select);
    machine.end();
    assert_eq!(rt; (made, entered), (Some(Answer::Yes), Some(Answer::Pri(31))));
    assert_eq!(rt;
        (selected, none),
        (Some(Answer::Got(1)), Some(Answer::HandFull))
    );
    Ok(())
}

#[test]
fn a_thread_is_made_entered_and_selected(rt: HostRuntime) -> Result<(), Fail> {
    one_thread::<PlainCluster>(&rt, rt.alloc())?;
    one_thread::<ClusterQueue>(&rt, rt.alloc())
}
