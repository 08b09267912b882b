//! Acts that move a thread between a hand and a queue.

ghost use Rattle.sched_base.specs.declared.Act.TheVariants as acts;
ghost use Rattle.sched_base.specs.declared.Answer.TheVariants as answers;
ghost use Rattle.std.specs.Prelude.{◌≡◌, ◌≢◌, ◌<◌, ◌≤◌, IsSome, None, Option, Some, false, length, slice_set};
ghost use Rattle.sched_base.specs.declared.Facts.{Facts};
ghost use Rattle.flat_policy.specs.Policy.BuiltSetups.{IsSetup};
ghost use Rattle.flat_policy.specs.Policy.Clusters.{NameStands};
ghost use Rattle.flat_policy.specs.Policy.ClusterSteps.{facts_of, got};
ghost use Rattle.flat_policy.specs.Policy.Machine.{not_allowed, taking_hand};
ghost use Rattle.flat_policy.specs.Policy.Queue.{Queued};
ghost use Rattle.flat_policy.specs.Policy.Setup.{cluster_count, home_of};
ghost use Rattle.trace_machine.specs.Parts.{Does, IsQueuedAs, IsReady, cluster_at, hand_of};

use super::Parts;
use flat_policy::cluster::Cluster;
use flat_policy::laws::calls_keep_standing;
use sched_base::limits::MOMENT_LIMIT;
use sched_base::{Answer, Thread, Ticket};

impl<K: Cluster> Parts<K> {
    /// The hand's thread enters the queue of a cluster, at the head or the tail of its equals.
    pub fn enter(&mut self, actor: u8, c: u8, head: bool, now: u64) -> Ticket
        requires ready { IsReady self.old actor }
        requires cluster { c < cluster_count self.old.setup }
        requires held { IsSome (hand_of self.old actor).thread }
        requires allowed { (not_allowed self.old.setup (hand_of self.old actor).thread c).holds ≡ false }
        requires room { length (cluster_at self.old c).flat.entries < self.old.setup.threads }
        requires moment { now < MOMENT_LIMIT }
        requires later { (cluster_at self.old c).flat.last ≤ now }
        ensures does { Does self.old self.new actor now (acts.Enter c head) (answers.Pri result.pri) }
        ensures cluster { result.cluster ≡ c }
        ensures stands { (t : Facts) → (hand_of self.old actor).thread ≡ Some t → NameStands (cluster_at self.new c) result.slot result.arrival t.name }
    {
        calls_keep_standing();
        let thread = self.release(actor, now);
        self.enter_at(c, thread, head, now)
    }

    /// The pick of the home's queue comes into the hand, where there is one. Of a home that is off
    /// nothing is taken.
    pub fn select(&mut self, actor: u8, now: u64) -> Answer
        requires ready { IsReady self.old actor }
        requires empty { (hand_of self.old actor).thread ≡ None }
        requires moment { now < MOMENT_LIMIT }
        requires later { (cluster_at self.old (home_of self.old.setup actor)).flat.last ≤ now }
        ensures { Does self.old self.new actor now acts.Select result }
    {
        calls_keep_standing();
        let home = self.home(actor);
        if !self.is_on(home) {
            self.touch_at(home, now);
            self.keep(actor, now);
            return Answer::Off;
        }
        let picked = self.select_at(home, now);
        self.take(actor, picked, now)
    }

    /// The thread that another cluster offers to the home comes into the hand, where there is one.
    pub fn offer(&mut self, actor: u8, from: u8, now: u64) -> Answer
        requires ready { IsReady self.old actor }
        requires cluster { from < cluster_count self.old.setup }
        requires other { from ≢ home_of self.old.setup actor }
        requires empty { (hand_of self.old actor).thread ≡ None }
        requires moment { now < MOMENT_LIMIT }
        requires later { (cluster_at self.old from).flat.last ≤ now }
        ensures { Does self.old self.new actor now (acts.Offer from) result }
    {
        calls_keep_standing();
        let home = self.home(actor);
        let offered = self.offer_at(from, home, now);
        self.take(actor, offered, now)
    }

    /// The thread that a ticket names comes out of the home's queue into the hand.
    pub fn pull(&mut self, actor: u8, name: u32, ticket: Ticket, now: u64)
        requires ready { IsReady self.old actor }
        requires empty { (hand_of self.old actor).thread ≡ None }
        requires queued { IsQueuedAs (cluster_at self.old (home_of self.old.setup actor)) name ticket }
        requires moment { now < MOMENT_LIMIT }
        requires later { (cluster_at self.old (home_of self.old.setup actor)).flat.last ≤ now }
        ensures { Does self.old self.new actor now (acts.Pull name) answers.Yes }
    {
        calls_keep_standing();
        let home = self.home(actor);
        match self.pull_at(home, ticket, now) {
            Some(thread) => self.fill(actor, thread, now),
            None => unreachable!(),
        }
    }

    /// Takes what a queue gave into an empty hand, and tells its name. The clusters and the other
    /// hands stay.
    fn take(&mut self, actor: u8, given: Option<Thread>, now: u64) -> Answer
        requires built { IsSetup self.old.setup }
        requires actor { actor < length self.old.hands }
        requires empty { (hand_of self.old actor).thread ≡ None }
        ensures answer { (e : Option Queued) → given ≡ facts_of e → result ≡ got e }
        ensures parts { self.new ≡ record self.old { hands = slice_set self.old.hands actor (taking_hand self.old.setup (hand_of self.old actor) given now) } }
    {
        match given {
            Some(thread) => {
                let name = thread.facts().name;
                self.fill(actor, thread, now);
                Answer::Got(name)
            }
            None => {
                self.keep(actor, now);
                Answer::Empty
            }
        }
    }
}
