//! Acts that move a thread between a hand and a queue.

ghost use Rattle.std.specs.Prelude.{◌≡◌, ◌≢◌, ◌==◌, IfNone, IfSome, IsSome, Some, false, if◌then◌else◌, ℕ};
ghost use Rattle.sched_base.specs.declared.Act.TheVariants as acts;
ghost use Rattle.sched_base.specs.declared.Answer.TheVariants as answers;
ghost use Rattle.trace_machine.specs.Acting.{Acts, IsSet};
ghost use Rattle.trace_machine.specs.Yards.{is_queued_at, standing_of};
ghost use Rattle.trace_machine.specs.declared.names.Standing.TheVariants as standings;

use super::{Machine, place_at};
use crate::names::Standing;
use flat_policy::cluster::Cluster;
use sched_base::{Answer, Ticket};

/// The ticket of a standing in the queue of a cluster.
fn ticket_at(standing: Option<Standing>, c: u8) -> Option<Ticket>
    ensures queued { IfSome result (λ ticket. standing ≡ Some (standings.Queued ticket)) }
    ensures here { IfSome result (λ ticket. ticket.cluster ≡ c) }
    ensures other { IfNone result (is_queued_at c standing ≡ false) }
{
    match standing {
        Some(Standing::Queued(ticket)) => {
            if ticket.cluster == c {
                Some(ticket)
            } else {
                None
            }
        }
        Some(Standing::Held(_)) => None,
        Some(Standing::Blocked(_)) => None,
        Some(Standing::Ended) => None,
        None => None,
    }
}

impl<K: Cluster> Machine<K> {
    /// The hand's thread enters a queue.
    pub(crate) fn enter(&mut self, actor: u8, c: u8, head: bool, now: u64) -> Answer
        requires { IsSet self.old actor now (acts.Enter c head) }
        ensures { Acts self.old self.new actor now (acts.Enter c head) result }
    {
        self.stays();
        let Some(name) = self.parts.held_name(actor) else {
            return Answer::HandEmpty;
        };
        if self.parts.is_kept_out(actor, c) {
            return Answer::NotAllowed;
        }
        let ticket = self.parts.enter(actor, c, head, now);
        self.names.set(name, Standing::Queued(ticket));
        Answer::Pri(ticket.pri)
    }

    /// The pick of the home's queue comes into the hand.
    pub(crate) fn select(&mut self, actor: u8, now: u64) -> Answer
        requires { IsSet self.old actor now acts.Select }
        ensures { Acts self.old self.new actor now acts.Select result }
    {
        self.stays();
        if self.parts.holds(actor) {
            return Answer::HandFull;
        }
        let answer = self.parts.select(actor, now);
        self.note_held(actor, answer);
        answer
    }

    /// What another cluster offers comes into the hand.
    pub(crate) fn offer(&mut self, actor: u8, from: u8, now: u64) -> Answer
        requires { IsSet self.old actor now (acts.Offer from) }
        ensures { Acts self.old self.new actor now (acts.Offer from) result }
    {
        self.stays();
        if self.parts.holds(actor) {
            return Answer::HandFull;
        }
        if self.parts.home(actor) == from {
            return Answer::OwnCluster;
        }
        let answer = self.parts.offer(actor, from, now);
        self.note_held(actor, answer);
        answer
    }

    /// A named thread comes out of the home's queue into the hand.
    pub(crate) fn pull(&mut self, actor: u8, name: u32, now: u64) -> Answer
        requires { IsSet self.old actor now (acts.Pull name) }
        ensures { Acts self.old self.new actor now (acts.Pull name) result }
    {
        self.stays();
        if self.parts.holds(actor) {
            return Answer::HandFull;
        }
        let standing = self.names.get(name);
        match ticket_at(standing, self.parts.home(actor)) {
            Some(ticket) => {
                self.parts.pull(actor, name, ticket, now);
                self.names.set(name, Standing::Held(actor));
                Answer::Yes
            }
            None => Answer::NotQueued(place_at(standing)),
        }
    }

    /// Notes that a thread that was got is in the hand.
    fn note_held(&mut self, actor: u8, answer: Answer)
        requires { (name : ℕ) → answer ≡ answers.Got name → IsSome (standing_of self.old.names name) }
        ensures parts { self.new.parts ≡ self.old.parts }
        ensures yard { self.new.yard ≡ self.old.yard }
        ensures steps { self.new.steps ≡ self.old.steps }
        ensures held { (name : ℕ) → answer ≡ answers.Got name → (other : ℕ) → standing_of self.new.names other ≡ (if other == name then Some (standings.Held actor) else standing_of self.old.names other) }
        ensures rest { ((name : ℕ) → answer ≢ answers.Got name) → self.new.names ≡ self.old.names }
    {
        if let Answer::Got(name) = answer {
            self.names.set(name, Standing::Held(actor));
        }
    }
}
