//! What is asked of a machine. Nothing changes.

ghost use Rattle.std.specs.Prelude.{◌≡◌, ◌<◌};
ghost use Rattle.flat_policy.specs.Policy.Machine.{MachineState, hand_at, live_count, place_of};
ghost use Rattle.flat_policy.specs.Policy.Setup.{actor_count};
ghost use Rattle.flat_policy.specs.Runs.LoadTrace.{queued_count};
ghost use Rattle.trace_machine.specs.Machines.{IsMachine, Means};

use super::{Machine, place_at};
use flat_policy::cluster::Cluster;
use flat_policy::setup::Setup;
use sched_base::{Facts, Place};

impl<K: Cluster> Machine<K> {
    /// Where a name stands: in a queue, in a hand, among the blocked, among the ended, or nowhere.
    pub fn place(&self, name: u32) -> Place
        requires { IsMachine self.now }
        ensures { (g : MachineState) → Means self.now g → result ≡ place_of g name }
    {
        self.stays();
        place_at(self.names.get(name))
    }

    /// The facts of the thread in an actor's hand; `None` exactly where the hand is empty.
    pub fn hand(&self, actor: u8) -> Option<Facts>
        requires machine { IsMachine self.now }
        requires actor { actor < actor_count self.now.parts.setup }
        ensures { (g : MachineState) → Means self.now g → result ≡ (hand_at g actor).thread }
    {
        self.stays();
        self.parts.hand(actor)
    }

    /// How many threads live: made and not ended.
    pub fn live(&self) -> u32
        requires { IsMachine self.now }
        ensures { (g : MachineState) → Means self.now g → result ≡ live_count g.yard }
    {
        self.yard.live()
    }

    /// How many threads are queued, in all clusters.
    pub fn queued(&self) -> u64
        requires { IsMachine self.now }
        ensures { (g : MachineState) → Means self.now g → result ≡ queued_count g }
    {
        self.stays();
        self.parts.queued()
    }

    /// The setup that the machine was made with.
    pub fn setup(&self) -> &Setup
        ensures { result.now ≡ self.now.parts.setup }
    {
        self.parts.setup()
    }
}
