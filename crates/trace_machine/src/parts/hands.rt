//! What happens at a hand alone.

ghost use Rattle.sched_base.specs.declared.Act.TheVariants as acts;
ghost use Rattle.sched_base.specs.declared.Answer.TheVariants as answers;
ghost use Rattle.std.specs.Prelude.{◌≡◌, ◌<◌, ◌≤◌, IsSome, None, Some, length, slice_set, ℕ};
ghost use Rattle.flat_policy.specs.Policy.BuiltSetups.{IsSetup};
ghost use Rattle.flat_policy.specs.Policy.Machine.{empty_hand, filled_hand, kept_hand};
ghost use Rattle.flat_policy.specs.Policy.Setup.{actor_count};
ghost use Rattle.trace_machine.specs.Parts.{Does, IsReady, hand_of};

use super::Parts;
use flat_policy::cluster::Cluster;
use sched_base::Thread;
use std::mem;

impl<K: Cluster> Parts<K> {
    /// Puts a thread into an empty hand, which forgets its looks. The clusters and the other hands stay.
    pub fn fill(&mut self, actor: u8, thread: Thread, now: u64)
        requires built { IsSetup self.old.setup }
        requires actor { actor < length self.old.hands }
        requires empty { (hand_of self.old actor).thread ≡ None }
        ensures { self.new ≡ record self.old { hands = slice_set self.old.hands actor (filled_hand self.old.setup thread now) } }
    {
        let hand = &mut self.hands[actor as usize];
        match mem::replace(&mut hand.thread, Some(thread)) {
            None => {}
            Some(_) => unreachable!(),
        }
        hand.looks.clear();
        hand.last = now;
    }

    /// Takes the thread out of a hand, which forgets its looks. The clusters and the other hands stay.
    pub fn release(&mut self, actor: u8, now: u64) -> Thread
        requires built { IsSetup self.old.setup }
        requires actor { actor < length self.old.hands }
        requires held { IsSome (hand_of self.old actor).thread }
        ensures thread { (hand_of self.old actor).thread ≡ Some result }
        ensures parts { self.new ≡ record self.old { hands = slice_set self.old.hands actor (empty_hand self.old.setup now) } }
    {
        let hand = &mut self.hands[actor as usize];
        hand.looks.clear();
        hand.last = now;
        hand.thread.take().unwrap()
    }

    /// Sets the last moment of an actor alone.
    pub fn keep(&mut self, actor: u8, now: u64)
        requires { actor < length self.old.hands }
        ensures { self.new ≡ record self.old { hands = slice_set self.old.hands actor (kept_hand (hand_of self.old actor) now) } }
    {
        self.hands[actor as usize].last = now;
    }

    /// Charges the hand's thread for running so many microseconds, and tells its work.
    pub fn ran(&mut self, actor: u8, us: u32, now: u64) -> u64
        requires ready { IsReady self.old actor }
        requires held { IsSome (hand_of self.old actor).thread }
        ensures does { Does self.old self.new actor now (acts.Ran us) (answers.Work result) }
        ensures clusters { self.new.clusters ≡ self.old.clusters }
    {
        let rate = self.setup.rate(self.home(actor));
        let hand = &mut self.hands[actor as usize];
        hand.last = now;
        match &mut hand.thread {
            Some(thread) => {
                thread.charge(us, rate);
                thread.facts().work
            }
            None => unreachable!(),
        }
    }
}
