//! Acts in the yard: threads are made, sleep, wake and end.

ghost use Rattle.std.specs.Prelude.{◌≡◌, ◌<◌, IfOk, None, OnErr};
ghost use Rattle.sched_base.specs.declared.Act.TheVariants as acts;
ghost use Rattle.flat_policy.specs.Policy.Machine.{Yard, first_refusal, refusals_by};
ghost use Rattle.flat_policy.specs.Policy.Setup.{group_count};
ghost use Rattle.flat_policy.specs.Policy.Threads.{preference};
ghost use Rattle.trace_machine.specs.Acting.{Acts, IsSet};
ghost use Rattle.trace_machine.specs.Machines.{MeansOver};
ghost use Rattle.trace_machine.specs.Parts.{hand_of, state_of};
ghost use Rattle.trace_machine.specs.Yards.{slot_in};

use super::{Machine, place_at};
use crate::names::Standing;
use flat_policy::cluster::Cluster;
use flat_policy::setup::Setup;
use sched_base::{Answer, Bucket, Thread};
use std::alloc::AllocError;

/// The cluster that a thread prefers: the one that it is bound to, otherwise the setup's for its
/// group and bucket.
fn preference(setup: &Setup, group: u8, bucket: Bucket, bound: Option<u8>) -> u8
    requires { group < group_count setup.now }
    ensures { result ≡ preference setup.now group bucket bound }
{
    match bound {
        Some(cluster) => cluster,
        None => setup.prefer(group, bucket),
    }
}

/// The slot that a standing names in the yard; `None` where it names another place.
fn slot_at(standing: Option<Standing>) -> Option<u32>
    ensures { result ≡ slot_in standing }
{
    match standing {
        Some(Standing::Blocked(slot)) => Some(slot),
        _ => None,
    }
}

impl<K: Cluster> Machine<K> {
    /// Makes a thread into the hand. An error is want of memory: only a make that isn't refused may
    /// answer it, and then nothing changes.
    pub(crate) fn make(
        &mut self,
        actor: u8,
        name: u32,
        group: u8,
        bucket: Bucket,
        base: u8,
        bound: Option<u8>,
        now: u64,
    ) -> Result<Answer, AllocError>
        requires { IsSet self.old actor now (acts.Make name group bucket base bound) }
        ensures done { IfOk result (λ answer. Acts self.old self.new actor now (acts.Make name group bucket base bound) answer) }
        ensures err { OnErr result (self.new ≡ self.old) }
        ensures accepted { OnErr result ((y : Yard) → MeansOver self.old y → first_refusal (refusals_by self.old.parts.setup (state_of self.old.parts y) actor (hand_of self.old.parts actor) (acts.Make name group bucket base bound)) ≡ None) }
    {
        self.stays();
        if self.parts.holds(actor) {
            return Ok(Answer::HandFull);
        }
        if self.names.get(name).is_some() {
            return Ok(Answer::NameUsed);
        }
        if self.yard.live() >= self.parts.setup().threads() {
            return Ok(Answer::NoRoom);
        }
        let prefer = preference(self.parts.setup(), group, bucket, bound);
        self.names.add(name, Standing::Held(actor))?;
        let thread = Thread::new(name, group, bucket, base, bound, prefer, now);
        self.parts.fill(actor, thread, now);
        self.yard.make(now);
        Ok(Answer::Yes)
    }

    /// The hand's thread goes to sleep.
    pub(crate) fn sleep(&mut self, actor: u8, now: u64) -> Answer
        requires { IsSet self.old actor now acts.Sleep }
        ensures { Acts self.old self.new actor now acts.Sleep result }
    {
        self.stays();
        let Some(name) = self.parts.held_name(actor) else {
            return Answer::HandEmpty;
        };
        let thread = self.parts.release(actor, now);
        let slot = self.yard.sleep(thread, now);
        self.names.set(name, Standing::Blocked(slot));
        Answer::Yes
    }

    /// A blocked thread comes into the hand.
    pub(crate) fn wake(&mut self, actor: u8, name: u32, now: u64) -> Answer
        requires { IsSet self.old actor now (acts.Wake name) }
        ensures { Acts self.old self.new actor now (acts.Wake name) result }
    {
        self.stays();
        if self.parts.holds(actor) {
            return Answer::HandFull;
        }
        let standing = self.names.get(name);
        match slot_at(standing) {
            Some(slot) => {
                let thread = self.yard.wake(slot, now);
                self.parts.fill(actor, thread, now);
                self.names.set(name, Standing::Held(actor));
                Answer::Yes
            }
            None => Answer::NotBlocked(place_at(standing)),
        }
    }

    /// The hand's thread ends.
    pub(crate) fn end_thread(&mut self, actor: u8, now: u64) -> Answer
        requires { IsSet self.old actor now acts.End }
        ensures { Acts self.old self.new actor now acts.End result }
    {
        self.stays();
        if !self.parts.holds(actor) {
            return Answer::HandEmpty;
        }
        let ended = self.parts.release(actor, now).into_facts();
        self.yard.end_one(now);
        self.names.set(ended.name, Standing::Ended);
        Answer::Yes
    }

    /// Tells how many threads are blocked.
    pub(crate) fn blocked(&mut self, actor: u8, now: u64) -> Answer
        requires { IsSet self.old actor now acts.Blocked }
        ensures { Acts self.old self.new actor now acts.Blocked result }
    {
        self.stays();
        let count = self.yard.blocked();
        self.yard.touch(now);
        self.parts.keep(actor, now);
        Answer::Left(count)
    }
}
