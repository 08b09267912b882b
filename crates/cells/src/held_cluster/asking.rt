//! Steps that move no thread: the load is asked for, or the cluster is turned on or off.
ghost use Rattle.std.specs.Prelude.{◌≡◌, ◌<◌, ◌↔◌, IsNone, false};
ghost use Rattle.sched_base.specs.Bucket.{index};
ghost use Rattle.flat_policy.specs.Policy.Clusters.{after_touch, after_turn};
ghost use Rattle.flat_policy.specs.Policy.Setup.{actor_count};
ghost use Rattle.cells.specs.Desks.{StandsAt, line_desk};
ghost use Rattle.cells.specs.Held.{answer_of_load, look_entry, looking_at, marked, power_act, stepped, turn_entry, unmarked};

use super::{HeldCluster, add_line};
use crate::desk_set::DeskSet;
use crate::done::Done;
use crate::run_name::RunName;
use flat_policy::cluster::Cluster;
use rights::Share;
use sched_base::limits::MOMENT_LIMIT;
use sched_base::{Act, Answer, Bucket, Entry, Step};

impl<K: Cluster, N: RunName, const C: usize> HeldCluster<K, N, C> {
    /// The load for a bucket, in microseconds for each processor; none exactly where the entry's answer is `Off`, which
    /// is exactly where the cluster is off. The last moment alone changes in the queue, and the line right ends.
    pub fn look(
        &mut self,
        desks: &DeskSet,
        actor: u8,
        b: Bucket,
        now: u64,
        line: Share,
    ) -> Done<Option<u32>>
        requires desks { desks.now ≡ N.desks }
        requires line { StandsAt N.desks (line_desk C) line.desk × (line.amount ≡ 1) }
        requires actor { actor < actor_count N.setup }
        requires moment { now < MOMENT_LIMIT }
        ensures entry { result.entry ≡ look_entry C actor self.old.cluster b now }
        ensures held { self.new ≡ stepped (marked (index b) result.entry) (after_touch self.old.cluster now) self.old }
        ensures value { result.entry.answer ≡ answer_of_load result.value }
        ensures off { IsNone result.value ↔ (self.old.cluster.flat.on ≡ false) }
    {
        self.queue.keeps();
        self.lines.burn(desks.desk(2 * C + 1), line);
        let moment = now.max(self.queue.last());
        let value = load_of(&mut *self.queue, b, now);
        let entry = Entry {
            step: Step {
                moment,
                actor,
                act: Act::Look { cluster: C as u8 },
            },
            answer: answer_of_load(value),
            thread: None,
        };
        let mark = Some(u32::from(b.index()));
        add_line(&mut self.journal, entry, mark);
        Done { entry, value }
    }

    /// Turns the cluster on or off, whichever it was. Nothing else changes in the queue but the last moment, and the
    /// line right ends.
    pub fn turn(&mut self, desks: &DeskSet, actor: u8, on: bool, now: u64, line: Share) -> Done<()>
        requires desks { desks.now ≡ N.desks }
        requires line { StandsAt N.desks (line_desk C) line.desk × (line.amount ≡ 1) }
        requires actor { actor < actor_count N.setup }
        requires moment { now < MOMENT_LIMIT }
        ensures entry { result.entry ≡ turn_entry C actor self.old.cluster on now }
        ensures held { self.new ≡ stepped (unmarked result.entry) (after_turn self.old.cluster on now) self.old }
    {
        self.queue.keeps();
        self.lines.burn(desks.desk(2 * C + 1), line);
        let moment = now.max(self.queue.last());
        self.queue.turn(on, now);
        let act = power_act(C as u8, on);
        let entry = Entry {
            step: Step { moment, actor, act },
            answer: Answer::Yes,
            thread: None,
        };
        add_line(&mut self.journal, entry, None);
        Done { entry, value: () }
    }
}

// The load where the cluster is on. The last moment alone changes.
fn load_of<K: Cluster>(queue: &mut K, b: Bucket, now: u64) -> Option<u32>
    requires { now < MOMENT_LIMIT }
    ensures told { answer_of_load result ≡ (looking_at (K.Cluster.view queue.old) b now).answer }
    ensures off { IsNone result ↔ ((K.Cluster.view queue.old).flat.on ≡ false) }
    ensures view { K.Cluster.view queue.new ≡ after_touch (K.Cluster.view queue.old) now }
{
    if queue.is_on() {
        Some(queue.look(b, now))
    } else {
        queue.touch(now);
        None
    }
}

// The answer that tells a load, or that the cluster is off.
fn answer_of_load(load: Option<u32>) -> Answer
    ensures { result ≡ answer_of_load load }
{
    match load {
        Some(load) => Answer::Load(load),
        None => Answer::Off,
    }
}

// The act that turns a cluster on or off.
fn power_act(cluster: u8, on: bool) -> Act
    ensures { result ≡ power_act cluster on }
{
    if on {
        Act::On { cluster }
    } else {
        Act::Off { cluster }
    }
}
