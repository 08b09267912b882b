//! The machine: clusters, hands, the yard, and where each name stands.

ghost use Rattle.std.specs.Prelude.{◌≡◌, ◌<◌, ◌≤◌, ◌+◌, ◌^◌, IfOk, IsTrue, None, OnErr, OnOk, map, ℕ};
ghost use Rattle.flat_policy.specs.Policy.Machine.{empty_machine};
ghost use Rattle.trace_machine.specs.Yards.{place_in};
ghost use Rattle.trace_machine.specs.Machines.{IsMachine, Means};

mod asking;
mod moving;
mod resting;
mod stepping;
mod touching;

use crate::names::{Names, Standing};
use crate::parts::Parts;
use crate::yard::Yard;
use flat_policy::cluster::Cluster;
use flat_policy::setup::Setup;
use sched_base::Place;
use std::alloc::{AllocError, Global};
use std::marker::Model;

/// The machine over one kind of cluster. Contracts see its clusters and hands, its yard, where each
/// name stands, and how many steps it took; and what state of the policy's machine it means.
pub struct Machine<K: Cluster> {
    parts: Parts<K>,
    yard: Yard,
    names: Names,
    steps: u64,
}

impl<K: Cluster> Model for Machine<K> {
    ghost use Rattle.trace_machine.specs.Machines.{MachineView};

    ghost Value = { MachineView };

    ghost view = { λ m. record { parts = m.parts; yard = m.yard; names = m.names; steps = m.steps } };
}

/// The place that a standing names.
fn place_at(standing: Option<Standing>) -> Place
    ensures { result ≡ place_in standing }
{
    match standing {
        Some(Standing::Queued(ticket)) => Place::Queue(ticket.cluster),
        Some(Standing::Held(actor)) => Place::Hand(actor),
        Some(Standing::Blocked(_)) => Place::Blocked,
        Some(Standing::Ended) => Place::Ended,
        None => Place::Nowhere,
    }
}

impl<K: Cluster> Machine<K> {
    /// A machine before any step: its queues are empty and have spare room for every thread that may
    /// live, and so has its yard. An error is want of memory.
    pub fn new(alloc: Global, setup: Setup) -> Result<Machine<K>, AllocError>
        ensures means { IfOk result (λ made. Means made (empty_machine setup)) }
        ensures setup { IfOk result (λ made. made.parts.setup ≡ setup) }
        ensures steps { IfOk result (λ made. made.steps ≡ 0) }
    {
        let yard = Yard::new(alloc, setup.threads())?;
        match Parts::new(alloc, setup) {
            Ok(parts) => Ok(Machine {
                parts,
                yard,
                names: Names::new(alloc),
                steps: 0,
            }),
            Err(_) => {
                yard.end();
                Err(AllocError)
            }
        }
    }

    /// Ends the machine, and every thread in it.
    pub fn end(self)
        requires machine { IsMachine self }
        requires few { self.steps ≤ 2 ^ 50 }
    {
        self.stays();
        let Machine {
            parts,
            yard,
            names: _,
            steps: _,
        } = self;
        parts.end();
        yard.end();
    }
}
