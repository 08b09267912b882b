//! The value behind the lock of the yard.
ghost use Rattle.std.specs.Prelude.{◌≡◌, ◌<◌, ◌≤◌, ◌+◌, ◌-◌, ◌==◌, [], IfNone, IfOk, IfSome, None, OnErr, OnOk, Some, false, length};
ghost use Rattle.std.specs.List.{list_any};
ghost use Rattle.sched_base.specs.declared.Act.TheVariants as acts;
ghost use Rattle.flat_policy.specs.Policy.Setup.{actor_count};
ghost use Rattle.flat_policy.specs.Policy.Threads.{made_thread};
ghost use Rattle.flat_policy.specs.Runs.Histories.{empty_run_yard, ending, live_of_run, sleeping};
ghost use Rattle.flat_policy.specs.Runs.Journals.{empty_journal};
ghost use Rattle.cells.specs.Courses.{OnCourse};
ghost use Rattle.cells.specs.Desks.{StandsAt, fresh_book, yard_line_desk, yard_slot_desk};
ghost use Rattle.cells.specs.Held.{unmarked};
ghost use Rattle.cells.specs.Packs.{yard_amounts};
ghost use Rattle.cells.specs.Yards.{KeepsYard, enlisting, make_act, spare_in, yard_entry, yard_moment, yard_stepped};

mod waking;

use crate::desk_set::DeskSet;
use crate::done::Done;
use crate::pack::Pack;
use crate::rider::{Rider, Slots};
use crate::run_name::RunName;
use flat_policy::journal::{Journal, Line};
use rights::{Book, Share};
use sched_base::limits::{MOMENT_LIMIT, MOST_THREADS};
use sched_base::{Act, Answer, Entry, Facts, Step, Thread};
use std::alloc::{AllocError, Global};
use std::marker::Model;

/// The first number of lines that cannot be reserved at once.
const LINES: u64 = 1 << 40;

/// The numbers of the desks of the yard's slots and of its lines.
const YARD_SLOTS: usize = 16;

const YARD_LINES: usize = 17;

/// A blocked thread: since when, and from which moment on it may be woken (microseconds).
pub(crate) struct Resting {
    pub(crate) thread: Thread,
    pub(crate) since: u64,
    pub(crate) due: u64,
}

/// The blocked threads of a run in the order in which they went to sleep, the names made and ended, the last moment, the
/// journal, its two books, and the rights of the blocked and the ended threads. Contracts see all of them, and its type keeps
/// what `KeepsYard` says of them for the run N.
///
/// The thread that is due first is found by a walk over the blocked threads, and the others close up behind it.
pub struct HeldYard<N: RunName> {
    blocked: Vec<Resting>,
    made: Vec<u32>,
    ended: Vec<u32>,
    last: u64,
    journal: Journal,
    slots: Book,
    lines: Book,
    others: Pack<N>,
}

impl<N: RunName> Model for HeldYard<N> {
    ghost use Rattle.std.specs.Prelude.{map, vec_capacity};
    ghost use Rattle.cells.specs.Sleepers.{sleeper_of};
    ghost use Rattle.cells.specs.Yards.{KeepsYard, YardParts};

    ghost Value = { YardParts };

    ghost view = { λ h. record {
      yard = record { blocked = map sleeper_of h.blocked.items; ended = h.ended.items; made = h.made.items; last = h.last };
      room = vec_capacity h.blocked;
      made_room = vec_capacity h.made;
      ended_room = vec_capacity h.ended;
      journal = h.journal;
      slots = h.slots;
      lines = h.lines;
      others = h.others;
    } };

    ghost invariant = { λ h. KeepsYard N.setup N.programs N.desks (record {
      yard = record { blocked = map sleeper_of h.blocked.items; ended = h.ended.items; made = h.made.items; last = h.last };
      room = vec_capacity h.blocked;
      made_room = vec_capacity h.made;
      ended_room = vec_capacity h.ended;
      journal = h.journal;
      slots = h.slots;
      lines = h.lines;
      others = h.others;
    }) };
}

impl<N: RunName> HeldYard<N> {
    /// The empty yard of a run, of which nothing is minted: without room for blocked threads, and with room for 4096 names
    /// made and 4096 ended. `AllocError` is want of memory.
    pub(crate) fn new(
        alloc: Global,
        slots: Book,
        lines: Book,
        others: Pack<N>,
    ) -> Result<HeldYard<N>, AllocError>
        requires slots { StandsAt N.desks yard_slot_desk slots.desk × (slots ≡ fresh_book slots.desk) }
        requires lines { StandsAt N.desks yard_line_desk lines.desk × (lines ≡ fresh_book lines.desk) }
        requires others { others ≡ yard_amounts 0 0 }
        ensures { IfOk result (λ h. h ≡ record {
          yard = empty_run_yard;
          room = 0;
          made_room = MOST_THREADS;
          ended_room = MOST_THREADS;
          journal = empty_journal;
          slots = slots;
          lines = lines;
          others = yard_amounts 0 0;
        }) }
    {
        let made = Vec::with_capacity(alloc, MOST_THREADS)?;
        let ended = Vec::with_capacity(alloc, MOST_THREADS)?;
        Ok(HeldYard {
            blocked: Vec::new(alloc),
            made,
            ended,
            last: 0,
            journal: Journal::new(alloc),
            slots,
            lines,
            others,
        })
    }

    /// Does nothing. It tells a proof what every held yard keeps.
    pub fn keeps(&self)
        ensures { KeepsYard N.setup N.programs N.desks self.now }
    {
        let _ = &self.journal;
    }

    /// Makes a thread, which isn't queued or blocked yet, and mints its slot right of the yard. The line right ends.
    pub fn enlist(
        &mut self,
        desks: &DeskSet,
        actor: u8,
        t: Thread,
        slots: Slots<N>,
        now: u64,
        line: Share,
    ) -> Done<Rider<N>>
        requires desks { desks.now ≡ N.desks }
        requires line { StandsAt N.desks yard_line_desk line.desk × (line.amount ≡ 1) }
        requires actor { actor < actor_count N.setup }
        requires moment { now < MOMENT_LIMIT }
        requires fresh { t ≡ made_thread N.setup t.name t.group t.bucket t.base t.bound (yard_moment self.old.yard now) }
        requires course { OnCourse N.setup N.programs t }
        requires unused { list_any (λ n. n == t.name) self.old.yard.made ≡ false }
        requires live { live_of_run self.old.yard < N.setup.threads }
        requires few { length self.old.yard.made < MOST_THREADS }
        requires room { self.old.slots.minted < self.old.slots.parked + spare_in self.old }
        ensures entry { result.entry ≡ yard_entry (yard_moment self.old.yard now) actor (make_act t) (enlisting self.old.yard (yard_moment self.old.yard now) t) }
        ensures held { self.new ≡ yard_stepped (unmarked result.entry) (enlisting self.old.yard (yard_moment self.old.yard now) t).yard self.old }
        ensures value { result.value ≡ t }
    {
        self.keeps();
        // So few line rights, and so few names.
        let _ = self.journal.len();
        self.lines.burn(desks.desk(YARD_LINES), line);
        let moment = now.max(self.last);
        let facts = t.facts();
        let own = self.slots.mint(desks.desk(YARD_SLOTS), 1);
        self.made.push_reserved(facts.name);
        self.last = moment;
        let entry = entry_of(moment, actor, made_by(&facts), Answer::Yes, Some(facts));
        self.journal.push(Line { entry, mark: None });
        Done {
            entry,
            value: Rider::enlisted(desks, t, slots, own),
        }
    }

    /// A thread goes to sleep for `span` microseconds: it may be woken from the effective moment plus the span on, and at the
    /// last moment at the latest. Its right of the yard is parked, its others lie here, and the line right ends.
    pub fn sleep(
        &mut self,
        desks: &DeskSet,
        actor: u8,
        r: Rider<N>,
        span: u32,
        now: u64,
        line: Share,
    ) -> Done<()>
        requires desks { desks.now ≡ N.desks }
        requires line { StandsAt N.desks yard_line_desk line.desk × (line.amount ≡ 1) }
        requires actor { actor < actor_count N.setup }
        requires moment { now < MOMENT_LIMIT }
        requires course { OnCourse N.setup N.programs r }
        ensures entry { result.entry ≡ yard_entry (yard_moment self.old.yard now) actor acts.Sleep (sleeping self.old.yard (yard_moment self.old.yard now) r span) }
        ensures held { self.new ≡ yard_stepped (record { entry = result.entry; mark = Some span }) (sleeping self.old.yard (yard_moment self.old.yard now) r span).yard self.old }
    {
        self.keeps();
        let _ = self.journal.len();
        let facts = r.facts();
        let (thread, pack) = r.into_parts();
        let mut pack = pack;
        let own = pack.take_yard(desks);
        self.slots.take_in(desks.desk(YARD_SLOTS), own);
        self.others.join(desks, pack);
        self.lines.burn(desks.desk(YARD_LINES), line);
        let moment = now.max(self.last);
        let due = (moment + u64::from(span)).min(MOMENT_LIMIT - 1);
        self.blocked.push_reserved(Resting {
            thread,
            since: moment,
            due,
        });
        self.last = moment;
        let entry = entry_of(moment, actor, Act::Sleep, Answer::Yes, Some(facts));
        self.journal.push(Line {
            entry,
            mark: Some(span),
        });
        Done { entry, value: () }
    }

    /// A thread ends. Its rights lie here from then on, and the line right ends.
    pub fn end(
        &mut self,
        desks: &DeskSet,
        actor: u8,
        r: Rider<N>,
        now: u64,
        line: Share,
    ) -> Done<()>
        requires desks { desks.now ≡ N.desks }
        requires line { StandsAt N.desks yard_line_desk line.desk × (line.amount ≡ 1) }
        requires actor { actor < actor_count N.setup }
        requires moment { now < MOMENT_LIMIT }
        ensures entry { result.entry ≡ yard_entry (yard_moment self.old.yard now) actor acts.End (ending self.old.yard (yard_moment self.old.yard now) r) }
        ensures held { self.new ≡ yard_stepped (unmarked result.entry) (ending self.old.yard (yard_moment self.old.yard now) r).yard self.old }
    {
        self.keeps();
        let _ = self.journal.len();
        let (thread, pack) = r.into_parts();
        self.others.join(desks, pack);
        // The rule of the rights tells that no more end than were made.
        self.others.count_yard(desks, &mut self.slots);
        self.lines.burn(desks.desk(YARD_LINES), line);
        let moment = now.max(self.last);
        let facts = thread.into_facts();
        self.ended.push_reserved(facts.name);
        self.last = moment;
        let entry = entry_of(moment, actor, Act::End, Answer::Yes, Some(facts));
        self.journal.push(Line { entry, mark: None });
        Done { entry, value: () }
    }

    /// Makes room for one blocked thread more at least. An error changes nothing.
    pub fn reserve_slot(&mut self) -> Result<(), AllocError>
        ensures same { self.new ≡ record self.old { room = self.new.room } }
        ensures room { OnOk result (spare_in self.old + 1 ≤ spare_in self.new) }
        ensures err { OnErr result (self.new ≡ self.old) }
    {
        // By one each time: the room would soon be too great if each call doubled it.
        let spare = self.blocked.capacity() - self.blocked.len();
        self.blocked.reserve_exact(spare + 1)
    }

    /// Makes the free room of the journal so great that `n` line rights more may be minted. An error changes nothing.
    pub fn reserve_lines(&mut self, n: u64) -> Result<(), AllocError>
        requires { n < LINES }
        ensures same { self.new ≡ record self.old { journal = record self.old.journal { free = self.new.journal.free } } }
        ensures room { OnOk result (self.old.lines.minted + n ≤ self.new.journal.free) }
        ensures err { OnErr result (self.new ≡ self.old) }
    {
        // Fewer line rights than 2^40.
        let _ = self.journal.len();
        self.journal.reserve(self.lines.minted() + n)
    }

    /// Mints `n` line rights.
    pub fn mint_lines(&mut self, desks: &DeskSet, n: u64) -> Share
        requires desks { desks.now ≡ N.desks }
        requires room { self.old.lines.minted + n ≤ self.old.journal.free }
        ensures held { self.new ≡ record self.old { lines = record self.old.lines { minted = self.old.lines.minted + n } } }
        ensures desk { StandsAt N.desks yard_line_desk result.desk }
        ensures amount { result.amount ≡ n }
    {
        self.keeps();
        // Fewer line rights than 2^40.
        let _ = self.journal.len();
        self.lines.mint(desks.desk(YARD_LINES), n)
    }

    /// Ends the held yard with every blocked thread. It gives out the journal, the book of the yard's slots as it was, and
    /// the yard's slot rights of the ended threads.
    pub(crate) fn close(self) -> (Journal, Book, Share)
        ensures kept { KeepsYard N.setup N.programs N.desks self }
        ensures journal { result.0 ≡ self.journal }
        ensures slots { result.1 ≡ self.slots }
        ensures desk { StandsAt N.desks yard_slot_desk result.2.desk }
        ensures amount { result.2.amount ≡ length self.yard.ended }
    {
        self.keeps();
        let HeldYard {
            blocked,
            made: _,
            ended: _,
            last: _,
            journal,
            slots,
            lines: _,
            others,
        } = self;
        end_all(blocked);
        (journal, slots, others.into_yard())
    }

    /// How many threads live: made and not ended.
    pub fn live(&self) -> u32
        ensures { result ≡ live_of_run self.now.yard }
    {
        self.keeps();
        self.made.len() as u32 - self.ended.len() as u32
    }

    /// How many threads ended.
    pub fn ended(&self) -> u32
        ensures { result ≡ length self.now.yard.ended }
    {
        self.keeps();
        self.ended.len() as u32
    }

    /// How many threads are blocked.
    pub fn blocked(&self) -> u32
        ensures { result ≡ length self.now.yard.blocked }
    {
        self.keeps();
        // No more are parked than minted.
        let _ = self.slots.parked();
        self.blocked.len() as u32
    }

    /// The last moment, in microseconds; 0 before any step.
    pub fn last(&self) -> u64
        ensures { result ≡ self.now.yard.last }
    {
        self.last
    }
}

// Ends blocked threads.
fn end_all(blocked: Vec<Resting>) {
    let mut blocked = blocked;
    for _ in 0..blocked.len() {
        if let Some(resting) = blocked.pop() {
            let Resting {
                thread,
                since: _,
                due: _,
            } = resting;
            thread.into_facts();
        }
    }
    blocked.destroy_empty();
}

// The entry of a step in the yard.
fn entry_of(moment: u64, actor: u8, act: Act, answer: Answer, thread: Option<Facts>) -> Entry
    ensures { result ≡ yard_entry moment actor act (record { answer = answer; thread = thread; yard = empty_run_yard }) }
{
    Entry {
        step: Step { moment, actor, act },
        answer,
        thread,
    }
}

// The act that makes a thread of these facts.
fn made_by(facts: &Facts) -> Act
    ensures { result ≡ make_act facts.now }
{
    Act::Make {
        name: facts.name,
        group: facts.group,
        bucket: facts.bucket,
        base: facts.base,
        bound: facts.bound,
    }
}
