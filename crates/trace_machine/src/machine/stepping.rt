//! Steps, one and many.

ghost use Rattle.std.specs.Prelude.{◌≡◌, ◌<◌, ◌≤◌, ◌+◌, ◌^◌, Contains, IfOk, IsTrue, None, Some, OnErr, OnOk, length, map, ℕ};
ghost use Rattle.sched_base.specs.declared.Step.{Step as StepTaken};
ghost use Rattle.sched_base.specs.declared.Spot.TheVariants as spots;
ghost use Rattle.flat_policy.specs.Policy.Machine.{MachineState, Yard, effective_moment, first_refusal, fits_act, fits_step, last_at, refusal, refusals_by, replies, site_of, spot_from, states_after};
ghost use Rattle.flat_policy.specs.Policy.Setup.{actor_count, cluster_count, home_of};
ghost use Rattle.trace_machine.specs.Acting.{Acts, IsSet, KeepsOn};
ghost use Rattle.trace_machine.specs.Machines.{IsMachine, Means, MeansOver, StepsTo, reply_in};
ghost use Rattle.trace_machine.specs.Parts.{hand_of, state_of};

use super::Machine;
use crate::Reply;
use flat_policy::cluster::Cluster;
use flat_policy::laws::{
    place_is_where_it_stands, runs_keep_counts, runs_stay_sound, runs_stay_within,
};
use sched_base::{Act, Answer, Spot, Step};
use std::alloc::{AllocError, Global};

/// The place of an act, for an actor of a home: a cluster, the yard, or none.
fn spot_from(home: u8, act: &Act) -> Option<Spot>
    ensures { result ≡ spot_from home (site_of act.now) }
{
    match *act {
        Act::Make { .. } => Some(Spot::Yard),
        Act::Enter { cluster, .. } => Some(Spot::Cluster(cluster)),
        Act::Select => Some(Spot::Cluster(home)),
        Act::Offer { cluster } => Some(Spot::Cluster(cluster)),
        Act::Pull { .. } => Some(Spot::Cluster(home)),
        Act::Look { cluster } => Some(Spot::Cluster(cluster)),
        Act::Aim => None,
        Act::Ran { .. } => None,
        Act::Sleep => Some(Spot::Yard),
        Act::Wake { .. } => Some(Spot::Yard),
        Act::End => Some(Spot::Yard),
        Act::Blocked => Some(Spot::Yard),
        Act::Refresh => Some(Spot::Cluster(home)),
        Act::Off { cluster } => Some(Spot::Cluster(cluster)),
        Act::On { cluster } => Some(Spot::Cluster(cluster)),
    }
}

impl<K: Cluster> Machine<K> {
    /// Takes a step that the setup fits, and replies as the policy does: the step's effective moment
    /// and its answer. A refused step changes nothing. An error is want of memory; only a make that
    /// isn't refused may answer it, and then nothing changes.
    pub fn step(&mut self, s: &Step) -> Result<Reply, AllocError>
        requires machine { IsMachine self.old }
        requires fits { IsTrue (fits_step self.old.parts.setup s.now) }
        requires few { self.old.steps < 2 ^ 50 }
        ensures steps { IfOk result (λ told. StepsTo self.old self.new s.now told) }
        ensures count { OnOk result (self.new.steps ≡ self.old.steps + 1) }
        ensures err { OnErr result (self.new ≡ self.old) }
        ensures accepted { OnErr result ((g : MachineState) → Means self.old g → refusal self.old.parts.setup g s.now ≡ None) }
    {
        self.stays();
        let now = self.moment_of(s);
        let answer = self.act(s.actor, &s.act, now)?;
        self.steps += 1;
        Ok(Reply {
            moment: now,
            answer,
        })
    }

    /// The effective moment of a step: the greatest of its own, the actor's last and the last of
    /// the place of the act.
    fn moment_of(&self, s: &Step) -> u64
        requires machine { IsMachine self.now }
        requires fits { IsTrue (fits_step self.now.parts.setup s.now) }
        ensures { (y : Yard) → MeansOver self.now y → result ≡ effective_moment self.now.parts.setup (state_of self.now.parts y) s.now }
    {
        self.stays();
        let own = s.moment.max(self.parts.hand_last(s.actor));
        own.max(self.spot_last(spot_from(self.parts.home(s.actor), &s.act)))
    }

    /// The last moment of a place, 0 for none.
    fn spot_last(&self, spot: Option<Spot>) -> u64
        requires { (c : ℕ) → spot ≡ Some (spots.Cluster c) → c < length self.now.parts.clusters }
        ensures { (y : Yard) → self.now.yard.last ≡ y.last → result ≡ last_at (state_of self.now.parts y) spot }
    {
        match spot {
            Some(Spot::Cluster(c)) => self.parts.cluster_last(c),
            Some(Spot::Yard) => self.yard.last(),
            None => 0,
        }
    }

    /// Does nothing. It tells what the policy's laws say of what the machine means.
    pub(crate) fn stays(&self)
        ensures { (y : Yard) → MeansOver self.now y → KeepsOn self.now y }
    {
        let _steps = &self.steps;
        runs_keep_counts();
        runs_stay_sound();
        runs_stay_within();
        place_is_where_it_stands();
    }

    /// What each act does.
    fn act(&mut self, actor: u8, act: &Act, now: u64) -> Result<Answer, AllocError>
        requires { IsSet self.old actor now act.now }
        ensures done { IfOk result (λ answer. Acts self.old self.new actor now act.now answer) }
        ensures err { OnErr result (self.new ≡ self.old) }
        ensures accepted { OnErr result ((y : Yard) → MeansOver self.old y → (first_refusal (refusals_by self.old.parts.setup (state_of self.old.parts y) actor (hand_of self.old.parts actor) act.now) ≡ None)) }
    {
        Ok(match *act {
            Act::Make {
                name,
                group,
                bucket,
                base,
                bound,
            } => self.make(actor, name, group, bucket, base, bound, now)?,
            Act::Enter { cluster, head } => self.enter(actor, cluster, head, now),
            Act::Select => self.select(actor, now),
            Act::Offer { cluster } => self.offer(actor, cluster, now),
            Act::Pull { name } => self.pull(actor, name, now),
            Act::Look { cluster } => self.look(actor, cluster, now),
            Act::Aim => self.aim(actor, now),
            Act::Ran { us } => self.ran(actor, us, now),
            Act::Sleep => self.sleep(actor, now),
            Act::Wake { name } => self.wake(actor, name, now),
            Act::End => self.end_thread(actor, now),
            Act::Blocked => self.blocked(actor, now),
            Act::Refresh => self.refresh(actor, now),
            Act::Off { cluster } => self.turn_off(actor, cluster, now),
            Act::On { cluster } => self.turn_on(actor, cluster, now),
        })
    }

    /// Takes steps that the setup fits, one after the other, and tells the replies.
    pub fn replies(&mut self, alloc: Global, steps: &[Step]) -> Result<Vec<Reply>, AllocError>
        requires machine { IsMachine self.old }
        requires fits { (s : StepTaken) → Contains steps.now s → IsTrue (fits_step self.old.parts.setup s) }
        requires few { self.old.steps + length steps.now ≤ 2 ^ 50 }
        ensures replies { IfOk result (λ told. (g : MachineState) → Means self.old g → told.items ≡ map reply_in (replies self.old.parts.setup g steps.now)) }
        ensures leads { OnOk result ((g : MachineState) → Means self.old g → Means self.new (states_after self.old.parts.setup g steps.now)) }
    {
        let mut told = Vec::new(alloc);
        for step in steps {
            told.push(self.step(step)?)?;
        }
        Ok(told)
    }
}
