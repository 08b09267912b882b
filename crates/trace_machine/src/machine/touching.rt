//! Acts that move no thread.

ghost use Rattle.std.specs.Prelude.{◌≡◌};
ghost use Rattle.sched_base.specs.declared.Act.TheVariants as acts;
ghost use Rattle.sched_base.specs.declared.Answer.TheVariants as answers;
ghost use Rattle.trace_machine.specs.Acting.{Acts, IsSet};

use super::Machine;
use flat_policy::cluster::Cluster;
use sched_base::Answer;

impl<K: Cluster> Machine<K> {
    /// Prices the entries of the home's queue anew. It's rare and needs large tables, which the frame
    /// of a step is not to hold.
    #[inline(never)]
    pub(crate) fn refresh(&mut self, actor: u8, now: u64) -> Answer
        requires { IsSet self.old actor now acts.Refresh }
        ensures { Acts self.old self.new actor now acts.Refresh result }
    {
        self.stays();
        Answer::New(self.parts.refresh(actor, now))
    }

    /// Turns a cluster off.
    pub(crate) fn turn_off(&mut self, actor: u8, c: u8, now: u64) -> Answer
        requires { IsSet self.old actor now (acts.Off c) }
        ensures { Acts self.old self.new actor now (acts.Off c) result }
    {
        self.stays();
        self.parts.turn(actor, c, false, now);
        Answer::Yes
    }

    /// Turns a cluster on.
    pub(crate) fn turn_on(&mut self, actor: u8, c: u8, now: u64) -> Answer
        requires { IsSet self.old actor now (acts.On c) }
        ensures { Acts self.old self.new actor now (acts.On c) result }
    {
        self.stays();
        self.parts.turn(actor, c, true, now);
        Answer::Yes
    }

    /// Looks at a cluster for the bucket of the hand's thread.
    pub(crate) fn look(&mut self, actor: u8, c: u8, now: u64) -> Answer
        requires { IsSet self.old actor now (acts.Look c) }
        ensures { Acts self.old self.new actor now (acts.Look c) result }
    {
        self.stays();
        if !self.parts.holds(actor) {
            return Answer::HandEmpty;
        }
        self.parts.look(actor, c, now)
    }

    /// Tells where the hand's thread should enter.
    pub(crate) fn aim(&mut self, actor: u8, now: u64) -> Answer
        requires { IsSet self.old actor now acts.Aim }
        ensures { Acts self.old self.new actor now acts.Aim result }
    {
        self.stays();
        if !self.parts.holds(actor) {
            return Answer::HandEmpty;
        }
        match self.parts.aim(actor) {
            Ok(c) => {
                self.parts.keep(actor, now);
                Answer::To(c)
            }
            Err(first) => Answer::LookFirst(first.cluster),
        }
    }

    /// Charges the hand's thread for running so many microseconds.
    pub(crate) fn ran(&mut self, actor: u8, us: u32, now: u64) -> Answer
        requires { IsSet self.old actor now (acts.Ran us) }
        ensures { Acts self.old self.new actor now (acts.Ran us) result }
    {
        self.stays();
        if !self.parts.holds(actor) {
            return Answer::HandEmpty;
        }
        Answer::Work(self.parts.ran(actor, us, now))
    }
}
