//! Steps that move a thread: it enters, is selected, or is offered to another cluster.
ghost use Rattle.std.specs.Prelude.{◌≡◌, ◌≢◌, ◌<◌, ◌≤◌, ◌+◌, ◌-◌, IfSome, is_none};
ghost use Rattle.flat_policy.specs.Policy.Aim.{MayEnter};
ghost use Rattle.flat_policy.specs.Policy.Clusters.{HasNumbers, SameRoom, after_offer, entered_in};
ghost use Rattle.flat_policy.specs.Policy.Setup.{actor_count, cluster_count, home_of, migrates, steal_mask};
ghost use Rattle.cells.specs.Courses.{Fits, OnCourse};
ghost use Rattle.cells.specs.Desks.{StandsAt, line_desk, slot_desk};
ghost use Rattle.cells.specs.Held.{TellsPriority, after_selecting, answer_told, enter_entry, gives_none, left_of, offer_entry, offering_at, select_entry, selecting_at, stepped, unmarked};
ghost use Rattle.cells.specs.Packs.{amounts_but};

use super::{HeldCluster, add_line};
use crate::desk_set::DeskSet;
use crate::done::Done;
use crate::pack::Pack;
use crate::rider::Rider;
use crate::run_name::RunName;
use flat_policy::cluster::Cluster;
use rights::{Book, Share};
use sched_base::limits::{MOMENT_LIMIT, STEAL_MASKS};
use sched_base::{Act, Answer, Entry, Facts, Step, Thread, Ticket};

impl<K: Cluster, N: RunName, const C: usize> HeldCluster<K, N, C> {
    /// A thread enters, at the head or the tail of its equals. Its right of this cluster is parked, its others lie
    /// here, and the line right ends.
    pub fn enter(
        &mut self,
        desks: &DeskSet,
        actor: u8,
        r: Rider<N>,
        head: bool,
        now: u64,
        line: Share,
    ) -> Done<Ticket>
        requires desks { desks.now ≡ N.desks }
        requires line { StandsAt N.desks (line_desk C) line.desk × (line.amount ≡ 1) }
        requires actor { actor < actor_count N.setup }
        requires moment { now < MOMENT_LIMIT }
        requires course { OnCourse N.setup N.programs r }
        requires may { MayEnter N.setup r C }
        ensures entry { result.entry ≡ enter_entry C actor self.old.cluster r head now }
        ensures held { self.new ≡ stepped (unmarked result.entry) (entered_in self.old.cluster r head now result.value.slot) self.old }
        ensures cluster { result.value.cluster ≡ C }
        ensures arrival { result.value.arrival ≡ self.old.cluster.flat.next_arrival }
        ensures pri { TellsPriority result.entry.answer result.value.pri }
    {
        self.queue.keeps();
        // So few lines that no number of the queue comes near its end.
        let _ = self.journal.len();
        let facts = r.facts();
        let (thread, pack) = r.into_parts();
        let mut pack = pack;
        let own = pack.take(desks, C);
        self.slots.take_in(desks.desk(2 * C), own);
        self.others.join(desks, pack);
        self.lines.burn(desks.desk(2 * C + 1), line);
        let moment = now.max(self.queue.last());
        let ticket = self.queue.enter(thread, head, now);
        let entry = Entry {
            step: Step {
                moment,
                actor,
                act: Act::Enter {
                    cluster: C as u8,
                    head,
                },
            },
            answer: Answer::Pri(ticket.pri),
            thread: Some(facts),
        };
        add_line(&mut self.journal, entry, None);
        Done {
            entry,
            value: ticket,
        }
    }

    /// The thread that the cluster picks leaves, with its rights; none exactly where nothing is queued or the cluster
    /// is off, and the entry's answer tells which. The line right ends.
    pub fn select(
        &mut self,
        desks: &DeskSet,
        actor: u8,
        now: u64,
        line: Share,
    ) -> Done<Option<Rider<N>>>
        requires desks { desks.now ≡ N.desks }
        requires line { StandsAt N.desks (line_desk C) line.desk × (line.amount ≡ 1) }
        requires actor { actor < actor_count N.setup }
        requires home { home_of N.setup actor ≡ C }
        requires moment { now < MOMENT_LIMIT }
        ensures entry { result.entry ≡ select_entry actor self.old.cluster now }
        ensures held { self.new ≡ stepped (unmarked result.entry) (after_selecting self.old.cluster now) self.old }
        ensures value { result.value ≡ result.entry.thread }
        ensures told { is_none result.value ≡ gives_none result.entry.answer }
        ensures course { IfSome result.value (OnCourse N.setup N.programs) }
    {
        self.queue.keeps();
        // So few lines that no number of the queue comes near its end.
        let _ = self.journal.len();
        self.lines.burn(desks.desk(2 * C + 1), line);
        let moment = now.max(self.queue.last());
        let on = self.queue.is_on();
        let thread = taken(&mut *self.queue, now);
        let entry = Entry {
            step: Step {
                moment,
                actor,
                act: Act::Select,
            },
            answer: answer_of(on, &thread),
            thread: facts_in(&thread),
        };
        add_line(&mut self.journal, entry, None);
        let value = released(C, &mut self.slots, &mut self.others, desks, thread);
        Done { entry, value }
    }

    /// The thread that the cluster offers to the actor's home leaves, with its rights; none exactly where the home may
    /// take no thread, and the entry's answer is then `Empty`. `to` is the actor's home and another cluster, and `rebalance` and
    /// `mask` are those of the edge to it, whether this cluster is on or off. The line right ends.
    pub fn offer(
        &mut self,
        desks: &DeskSet,
        actor: u8,
        to: u8,
        rebalance: bool,
        mask: u8,
        now: u64,
        line: Share,
    ) -> Done<Option<Rider<N>>>
        requires desks { desks.now ≡ N.desks }
        requires line { StandsAt N.desks (line_desk C) line.desk × (line.amount ≡ 1) }
        requires actor { actor < actor_count N.setup }
        requires home { home_of N.setup actor ≡ to }
        requires other { to ≢ C }
        requires edge { rebalance ≡ migrates N.setup C to }
        requires mask { mask ≡ steal_mask N.setup C to }
        requires moment { now < MOMENT_LIMIT }
        ensures entry { result.entry ≡ offer_entry C actor self.old.cluster to now }
        ensures held { self.new ≡ stepped (unmarked result.entry) (after_offer self.old.cluster to now) self.old }
        ensures value { result.value ≡ result.entry.thread }
        ensures told { is_none result.value ≡ gives_none result.entry.answer }
        ensures course { IfSome result.value (OnCourse N.setup N.programs) }
    {
        self.queue.keeps();
        // So few lines that no number of the queue comes near its end.
        let _ = self.journal.len();
        self.lines.burn(desks.desk(2 * C + 1), line);
        let moment = now.max(self.queue.last());
        let thread = offered(&mut *self.queue, to, rebalance, mask, now);
        let entry = Entry {
            step: Step {
                moment,
                actor,
                act: Act::Offer { cluster: C as u8 },
            },
            answer: answer_of(true, &thread),
            thread: facts_in(&thread),
        };
        add_line(&mut self.journal, entry, None);
        let value = released(C, &mut self.slots, &mut self.others, desks, thread);
        Done { entry, value }
    }
}

// The pick leaves where the cluster is on; where it is off its last moment alone changes.
fn taken<K: Cluster>(queue: &mut K, now: u64) -> Option<Thread>
    requires moment { now < MOMENT_LIMIT }
    requires numbers { HasNumbers (K.Cluster.view queue.old).flat }
    ensures picked { result ≡ (selecting_at (K.Cluster.view queue.old) now).thread }
    ensures view { K.Cluster.view queue.new ≡ after_selecting (K.Cluster.view queue.old) now }
    ensures room { SameRoom (K.Cluster.view queue.old) (K.Cluster.view queue.new) }
    ensures spare { (K.Cluster.view queue.new).spare ≡ (K.Cluster.view queue.old).spare + left_of result }
{
    if queue.is_on() {
        queue.select(now)
    } else {
        queue.touch(now);
        None
    }
}

// The thread that is offered leaves. Where the cluster is off the mask is not the edge's but all six buckets, if threads
// move along the edge.
fn offered<K: Cluster>(queue: &mut K, to: u8, rebalance: bool, mask: u8, now: u64) -> Option<Thread>
    requires there { to < cluster_count (K.Cluster.view queue.old).setup }
    requires other { to ≢ (K.Cluster.view queue.old).number }
    requires edge { rebalance ≡ migrates (K.Cluster.view queue.old).setup (K.Cluster.view queue.old).number to }
    requires mask { mask ≡ steal_mask (K.Cluster.view queue.old).setup (K.Cluster.view queue.old).number to }
    requires moment { now < MOMENT_LIMIT }
    requires numbers { HasNumbers (K.Cluster.view queue.old).flat }
    ensures offered { result ≡ (offering_at (K.Cluster.view queue.old) to now).thread }
    ensures view { K.Cluster.view queue.new ≡ after_offer (K.Cluster.view queue.old) to now }
    ensures room { SameRoom (K.Cluster.view queue.old) (K.Cluster.view queue.new) }
    ensures spare { (K.Cluster.view queue.new).spare ≡ (K.Cluster.view queue.old).spare + left_of result }
{
    let open = if !queue.is_on() && rebalance {
        STEAL_MASKS - 1
    } else {
        mask
    };
    queue.offer(to, rebalance, open, now)
}

// The answer that names a thread that was taken, or tells why there is none.
fn answer_of(on: bool, thread: &Option<Thread>) -> Answer
    ensures { result ≡ answer_told on thread.now }
{
    match thread {
        Some(t) if on => Answer::Got(t.facts().name),
        None if on => Answer::Empty,
        _ => Answer::Off,
    }
}

// The facts of a thread, where there is one.
fn facts_in(thread: &Option<Thread>) -> Option<Facts>
    ensures { result ≡ thread.now }
{
    match thread {
        Some(t) => Some(t.facts()),
        None => None,
    }
}

// A thread that left gets its rights back.
fn released<N: RunName>(
    c: usize,
    slots: &mut Book,
    others: &mut Pack<N>,
    desks: &DeskSet,
    thread: Option<Thread>,
) -> Option<Rider<N>>
    requires desks { desks.now ≡ N.desks }
    requires there { c < 8 }
    requires slots { StandsAt N.desks (slot_desk c) slots.old.desk }
    requires parked { left_of thread ≤ slots.old.parked }
    requires others { others.old ≡ amounts_but c 0 slots.old.parked }
    requires fits { IfSome thread (Fits N.setup N.programs) }
    ensures slots { slots.new ≡ record slots.old { parked = slots.old.parked - left_of thread } }
    ensures others { others.new ≡ amounts_but c 0 (slots.old.parked - left_of thread) }
    ensures value { result ≡ thread }
{
    match thread {
        Some(thread) => {
            let own = slots.give_out(desks.desk(2 * c), 1);
            Some(Rider::of(thread, others.give(desks, c, own)))
        }
        None => None,
    }
}
