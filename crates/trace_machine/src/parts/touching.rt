//! Acts at a cluster that move no thread.

ghost use Rattle.sched_base.specs.declared.Act.TheVariants as acts;
ghost use Rattle.sched_base.specs.declared.Answer.TheVariants as answers;
ghost use Rattle.std.specs.Prelude.{◌≡◌, ◌<◌, ◌≤◌, IsSome, None, Some, false, true, length, ℕ};
ghost use Rattle.flat_policy.specs.Policy.Setup.{cluster_count, home_of};
ghost use Rattle.trace_machine.specs.Parts.{Does, IsReady, cluster_at, hand_of};

use super::Parts;
use flat_policy::cluster::Cluster;
use flat_policy::laws::calls_keep_standing;
use sched_base::limits::MOMENT_LIMIT;
use sched_base::{Act, Answer};

impl<K: Cluster> Parts<K> {
    /// Prices the entries of the home's queue anew, and tells how many priorities changed.
    pub fn refresh(&mut self, actor: u8, now: u64) -> u32
        requires ready { IsReady self.old actor }
        requires moment { now < MOMENT_LIMIT }
        requires later { (cluster_at self.old (home_of self.old.setup actor)).flat.last ≤ now }
        ensures { Does self.old self.new actor now acts.Refresh (answers.New result) }
    {
        let home = self.home(actor);
        calls_keep_standing();
        let cluster = &mut self.clusters[home as usize];
        cluster.keeps();
        let changed = cluster.refresh(now);
        self.keep(actor, now);
        changed
    }

    /// Turns a cluster on or off.
    pub fn turn(&mut self, actor: u8, c: u8, on: bool, now: u64)
        requires ready { IsReady self.old actor }
        requires cluster { c < cluster_count self.old.setup }
        requires moment { now < MOMENT_LIMIT }
        requires later { (cluster_at self.old c).flat.last ≤ now }
        ensures off { on ≡ false → Does self.old self.new actor now (acts.Off c) answers.Yes }
        ensures on { on ≡ true → Does self.old self.new actor now (acts.On c) answers.Yes }
    {
        self.clusters[c as usize].turn(on, now);
        self.keep(actor, now);
    }

    /// Looks at a cluster for the bucket of the hand's thread, and notes what is seen: the load, or
    /// that the cluster is off.
    pub fn look(&mut self, actor: u8, c: u8, now: u64) -> Answer
        requires ready { IsReady self.old actor }
        requires cluster { c < cluster_count self.old.setup }
        requires held { IsSome (hand_of self.old actor).thread }
        requires moment { now < MOMENT_LIMIT }
        requires later { (cluster_at self.old c).flat.last ≤ now }
        ensures { Does self.old self.new actor now (acts.Look c) result }
    {
        let cluster = &mut self.clusters[c as usize];
        let hand = &mut self.hands[actor as usize];
        hand.last = now;
        if !cluster.is_on() {
            cluster.touch(now);
            hand.looks.note_off(c);
            return Answer::Off;
        }
        let bucket = match &hand.thread {
            Some(thread) => thread.facts().bucket,
            None => unreachable!(),
        };
        let load = cluster.look(bucket, now);
        hand.looks.note(c, load);
        Answer::Load(load)
    }
}
