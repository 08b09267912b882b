//! Waking: the thread that is due first leaves the yard.
ghost use Rattle.std.specs.Prelude.{◌≡◌, ◌<◌, ◌≤◌, ◌↔◌, [], IfNone, IfSome, IsNone, IsSome, None, Some, false, is_none, map, nat_le};
ghost use Rattle.std.specs.List.{list_any};
ghost use Rattle.flat_policy.specs.Policy.Setup.{actor_count};
ghost use Rattle.flat_policy.specs.Runs.Histories.{DueSleeper, first_sleeper, wakes_before};
ghost use Rattle.cells.specs.Courses.{OnCourse};
ghost use Rattle.cells.specs.Desks.{StandsAt, yard_line_desk};
ghost use Rattle.cells.specs.Held.{gives_none, unmarked};
ghost use Rattle.cells.specs.Sleepers.{sleeper_of};
ghost use Rattle.cells.specs.Waking.{IsDueAt, IsFirstAt};
ghost use Rattle.cells.specs.Yards.{due_first, some_due, wake_entry, waking_at, woken_at, yard_moment, yard_stepped};

use super::{HeldYard, Resting, YARD_LINES, YARD_SLOTS, entry_of};
use crate::desk_set::DeskSet;
use crate::done::Done;
use crate::rider::Rider;
use crate::run_name::RunName;
use flat_policy::journal::Line;
use rights::Share;
use sched_base::limits::MOMENT_LIMIT;
use sched_base::{Act, Answer};

impl<N: RunName> HeldYard<N> {
    /// Wakes the blocked thread with the least due moment, and of those the least name, where it is due at the effective
    /// moment. None exactly where no blocked thread is due then: the entry tells how many are blocked. The line right ends.
    pub fn wake_due(
        &mut self,
        desks: &DeskSet,
        actor: u8,
        now: u64,
        line: Share,
    ) -> Done<Option<Rider<N>>>
        requires desks { desks.now ≡ N.desks }
        requires line { StandsAt N.desks yard_line_desk line.desk × (line.amount ≡ 1) }
        requires actor { actor < actor_count N.setup }
        requires moment { now < MOMENT_LIMIT }
        ensures entry { result.entry ≡ wake_entry actor self.old.yard (yard_moment self.old.yard now) (due_first self.old.yard (yard_moment self.old.yard now)) }
        ensures held { self.new ≡ yard_stepped (unmarked result.entry) (waking_at self.old.yard (yard_moment self.old.yard now) (due_first self.old.yard (yard_moment self.old.yard now))).yard self.old }
        ensures value { result.value ≡ result.entry.thread }
        ensures course { IfSome result.value (OnCourse N.setup N.programs) }
        ensures told { is_none result.value ≡ gives_none result.entry.answer }
        ensures none { IsNone result.value ↔ (some_due self.old.yard (yard_moment self.old.yard now) ≡ false) }
    {
        self.keeps();
        let moment = now.max(self.last);
        match first_due(self.blocked.as_slice(), moment) {
            Some(i) => self.wake_at(desks, actor, i, moment, line),
            None => self.count_at(desks, actor, moment, line),
        }
    }

    /// Wakes the same thread at its due moment, where that is later than the effective moment. None exactly where none is
    /// blocked. The line right ends.
    pub fn wake_first(
        &mut self,
        desks: &DeskSet,
        actor: u8,
        now: u64,
        line: Share,
    ) -> Done<Option<Rider<N>>>
        requires desks { desks.now ≡ N.desks }
        requires line { StandsAt N.desks yard_line_desk line.desk × (line.amount ≡ 1) }
        requires actor { actor < actor_count N.setup }
        requires moment { now < MOMENT_LIMIT }
        ensures entry { result.entry ≡ wake_entry actor self.old.yard (woken_at (first_sleeper self.old.yard) (yard_moment self.old.yard now)) (first_sleeper self.old.yard) }
        ensures held { self.new ≡ yard_stepped (unmarked result.entry) (waking_at self.old.yard (woken_at (first_sleeper self.old.yard) (yard_moment self.old.yard now)) (first_sleeper self.old.yard)).yard self.old }
        ensures value { result.value ≡ result.entry.thread }
        ensures course { IfSome result.value (OnCourse N.setup N.programs) }
        ensures told { is_none result.value ≡ gives_none result.entry.answer }
        ensures none { IsNone result.value ↔ (self.old.yard.blocked ≡ []) }
    {
        self.keeps();
        let moment = now.max(self.last);
        match first_of(self.blocked.as_slice()) {
            Some(i) => {
                let moment = moment.max(self.blocked[i].due);
                self.wake_at(desks, actor, i, moment, line)
            }
            None => self.count_at(desks, actor, moment, line),
        }
    }

    // The thread that is woken first leaves with its rights, at a moment at which it is due.
    fn wake_at(
        &mut self,
        desks: &DeskSet,
        actor: u8,
        i: usize,
        moment: u64,
        line: Share,
    ) -> Done<Option<Rider<N>>>
        requires desks { desks.now ≡ N.desks }
        requires line { StandsAt N.desks yard_line_desk line.desk × (line.amount ≡ 1) }
        requires actor { actor < actor_count N.setup }
        requires later { self.old.yard.last ≤ moment }
        requires moment { moment < MOMENT_LIMIT }
        requires first { IsDueAt self.old.yard.blocked i moment }
        ensures entry { result.entry ≡ wake_entry actor self.old.yard moment (first_sleeper self.old.yard) }
        ensures held { self.new ≡ yard_stepped (unmarked result.entry) (waking_at self.old.yard moment (first_sleeper self.old.yard)).yard self.old }
        ensures value { result.value ≡ result.entry.thread }
        ensures course { IfSome result.value (OnCourse N.setup N.programs) }
        ensures some { IsSome result.value }
    {
        self.keeps();
        self.lines.burn(desks.desk(YARD_LINES), line);
        let Resting {
            thread,
            since,
            due: _,
        } = self.blocked.remove(i);
        let mut thread = thread;
        thread.rest(moment.saturating_sub(since));
        let facts = thread.facts();
        let own = self.slots.give_out(desks.desk(YARD_SLOTS), 1);
        let pack = self.others.give_yard(desks, own);
        self.last = moment;
        let act = Act::Wake { name: facts.name };
        let entry = entry_of(moment, actor, act, Answer::Yes, Some(facts));
        self.journal.push(Line { entry, mark: None });
        Done {
            entry,
            value: Some(Rider::of(thread, pack)),
        }
    }

    // The blocked threads are counted, where none is due.
    fn count_at(
        &mut self,
        desks: &DeskSet,
        actor: u8,
        moment: u64,
        line: Share,
    ) -> Done<Option<Rider<N>>>
        requires desks { desks.now ≡ N.desks }
        requires line { StandsAt N.desks yard_line_desk line.desk × (line.amount ≡ 1) }
        requires actor { actor < actor_count N.setup }
        requires later { self.old.yard.last ≤ moment }
        requires moment { moment < MOMENT_LIMIT }
        requires none { some_due self.old.yard moment ≡ false }
        ensures entry { result.entry ≡ wake_entry actor self.old.yard moment None }
        ensures held { self.new ≡ yard_stepped (unmarked result.entry) (waking_at self.old.yard moment None).yard self.old }
        ensures value { result.value ≡ None }
    {
        self.keeps();
        let left = Answer::Left(self.blocked());
        self.lines.burn(desks.desk(YARD_LINES), line);
        self.last = moment;
        let entry = entry_of(moment, actor, Act::Blocked, left, None);
        self.journal.push(Line { entry, mark: None });
        Done { entry, value: None }
    }
}

// The place of the thread that is woken first, where it is due at a moment; none where no thread is.
fn first_due(blocked: &[Resting], moment: u64) -> Option<usize>
    ensures none { IfNone result (list_any (λ (w : DueSleeper). nat_le w.due moment) (map sleeper_of blocked.now) ≡ false) }
    ensures first { IfSome result (λ i. IsDueAt (map sleeper_of blocked.now) i moment) }
{
    match first_of(blocked) {
        Some(i) if blocked[i].due <= moment => Some(i),
        _ => None,
    }
}

// The place of the thread that is woken first; none where none is blocked.
fn first_of(blocked: &[Resting]) -> Option<usize>
    ensures none { IfNone result (blocked.now ≡ []) }
    ensures first { IfSome result (λ i. IsFirstAt (map sleeper_of blocked.now) i) }
{
    if blocked.is_empty() {
        return None;
    }
    let mut best = 0;
    for i in 1..blocked.len() {
        if is_before(&blocked[i], &blocked[best]) {
            best = i;
        }
    }
    Some(best)
}

// Whether a thread is woken before another: by its due moment, and at one by its name.
fn is_before(x: &Resting, y: &Resting) -> bool
    ensures { result ≡ wakes_before (sleeper_of x.now) (sleeper_of y.now) }
{
    x.due < y.due || (x.due == y.due && x.thread.facts().name < y.thread.facts().name)
}
