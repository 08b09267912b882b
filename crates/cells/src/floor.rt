//! The held values of a run, each behind a lock of its own.
ghost use Rattle.std.specs.Prelude.{◌≡◌, ◌≢◌, ◌<◌, ◌≤◌, IfSome, vec_capacity, vec_len};
ghost use Rattle.std.specs.Option.{option_map};
ghost use Rattle.sched_base.specs.declared.Spot.TheVariants as spots;
ghost use Rattle.edge_matrix.specs.EdgeTables.{edges_of};
ghost use Rattle.flat_policy.specs.Policy.Aim.{MayEnter};
ghost use Rattle.flat_policy.specs.Policy.Setup.{actor_count, cluster_count, home_of};
ghost use Rattle.flat_policy.specs.Runs.Worker.{program_of as program_named};
ghost use Rattle.trace_text.specs.Runs.{program_of};
ghost use Rattle.cells.specs.Courses.{OnCourse};
ghost use Rattle.cells.specs.Floors.{SomeHeld, SomeYard};
ghost use Rattle.cells.specs.Frames.{power_told};
ghost use Rattle.cells.specs.Lines.{fewer_at, left_at};
ghost use Rattle.cells.specs.Packs.{yard_amounts};
ghost use Rattle.cells.specs.Told.{Ended, Entered, Looked, Offered, Selected, Slept, Turned, WokenDue, WokenFirst};

use crate::cluster_locks::{ClusterLocks, locked};
use crate::desk_set::DeskSet;
use crate::done::Done;
use crate::frame::Frame;
use crate::held_yard::HeldYard;
use crate::lines::Lines;
use crate::pack::Pack;
use crate::rider::Rider;
use crate::run_name::RunName;
use crate::still::Still;
use edge_matrix::Edges;
use flat_policy::cluster::Cluster;
use flat_policy::journal::Journal;
use flat_policy::setup::Setup;
use flat_policy::texts::ProgramLine;
use ports::Gate;
use sched_base::limits::MOMENT_LIMIT;
use sched_base::{Bucket, Spot, Ticket};
use std::marker::Model;
use std::sync::{Mutex, Wait};

/// What no step needs: it lies behind a lock that nobody asks for, since shares can't be lent to several threads.
#[derive(Drop)]
struct Rest<N: RunName> {
    stock: Pack<N>,
    no_lines: Lines<N>,
    journals: Vec<Journal>,
    ghost none: { no_lines ≡ yard_amounts 0 0 },
    ghost empty: { vec_len journals ≡ 0 },
    ghost room: { 9 ≤ vec_capacity journals },
}

/// The held clusters and the held yard of a run, each behind a lock of its own, with what the run was given. Contracts see
/// for how many numbered turns powers are told.
///
/// Each step passes `BeforeStep` of the gate, waits for the one lock of its place, passes `Holding`, does the held call with
/// one line right of the place, and lets the lock go. What it found behind the lock is known by its type alone: so a
/// contract says that it was some held value of this run that kept all that its type keeps. No step takes memory.
pub struct Floor<K: Cluster, N: RunName> {
    desks: DeskSet,
    locks: ClusterLocks<K, N>,
    yard: Mutex<HeldYard<N>>,
    frame: Frame<N>,
    rest: Mutex<Rest<N>>,
}

impl<K: Cluster, N: RunName> Model for Floor<K, N> {
    ghost use Rattle.std.specs.Prelude.{◌≡◌, ℕ};
    ghost use Rattle.flat_policy.specs.Policy.Setup.{cluster_count};
    ghost use Rattle.cells.specs.Stills.{AreFilled};

    ghost Value = { ℕ };

    ghost view = { λ f. f.frame };

    ghost invariant = { λ f. (f.desks ≡ N.desks) × AreFilled (cluster_count N.setup) f.locks };
}

impl<K: Cluster, N: RunName> Still<K, N> {
    /// Puts each held value behind a lock of its own. It takes no memory.
    pub fn start(self) -> Floor<K, N>
        ensures { result ≡ self.turns }
    {
        let Still {
            desks,
            clusters,
            yard,
            frame,
            stock,
            no_lines,
            journals,
        } = self;
        Floor {
            desks,
            locks: ClusterLocks::of(clusters),
            yard: Mutex::new(yard),
            frame,
            rest: Mutex::new(Rest {
                stock,
                no_lines,
                journals,
            }),
        }
    }
}

impl<K: Cluster, N: RunName> Floor<K, N> {
    /// Takes each held value out of its lock, without waiting and without memory. What is then known of them is what their
    /// types keep.
    pub fn still(self) -> Still<K, N>
        ensures { result.turns ≡ self }
    {
        let Floor {
            desks,
            locks,
            yard,
            frame,
            rest,
        } = self;
        let Rest {
            stock,
            no_lines,
            journals,
        } = rest.into_inner();
        Still {
            desks,
            clusters: locks.into_clusters(),
            yard: yard.into_inner(),
            frame,
            stock,
            no_lines,
            journals,
        }
    }

    /// A thread enters a cluster at the tail.
    pub fn enter<R: Wait, G: Gate>(
        &self,
        rt: &R,
        gate: &G,
        actor: u8,
        c: u8,
        r: Rider<N>,
        now: u64,
        lines: &mut Lines<N>,
    ) -> Done<Ticket>
        requires there { c < cluster_count N.setup }
        requires line { 1 ≤ left_at (spots.Cluster c) lines.old }
        requires actor { actor < actor_count N.setup }
        requires moment { now < MOMENT_LIMIT }
        requires course { OnCourse N.setup N.programs r }
        requires may { MayEnter N.setup r c }
        ensures step { SomeHeld N.setup N.programs N.desks c (Entered c actor r now result.entry result.value) }
        ensures line { lines.new ≡ fewer_at (spots.Cluster c) lines.old }
    {
        let line = lines.take(&self.desks, Spot::Cluster(c));
        self.locks
            .enter(rt, gate, &self.desks, actor, c, r, now, line)
    }

    /// The pick of the actor's home leaves; none exactly where the entry's answer is `Empty` or `Off`.
    pub fn select<R: Wait, G: Gate>(
        &self,
        rt: &R,
        gate: &G,
        actor: u8,
        now: u64,
        lines: &mut Lines<N>,
    ) -> Done<Option<Rider<N>>>
        requires line { 1 ≤ left_at (spots.Cluster (home_of N.setup actor)) lines.old }
        requires actor { actor < actor_count N.setup }
        requires moment { now < MOMENT_LIMIT }
        ensures step { SomeHeld N.setup N.programs N.desks (home_of N.setup actor) (Selected actor now result.entry result.value) }
        ensures course { IfSome result.value (OnCourse N.setup N.programs) }
        ensures line { lines.new ≡ fewer_at (spots.Cluster (home_of N.setup actor)) lines.old }
    {
        let home = self.frame.setup().home(actor);
        let line = lines.take(&self.desks, Spot::Cluster(home));
        self.locks
            .select(rt, gate, &self.desks, actor, home, now, line)
    }

    /// The thread that cluster `c` offers to the actor's home, another cluster, leaves; none exactly where the entry's answer
    /// is `Empty`.
    pub fn offer<R: Wait, G: Gate>(
        &self,
        rt: &R,
        gate: &G,
        actor: u8,
        c: u8,
        now: u64,
        lines: &mut Lines<N>,
    ) -> Done<Option<Rider<N>>>
        requires there { c < cluster_count N.setup }
        requires other { home_of N.setup actor ≢ c }
        requires line { 1 ≤ left_at (spots.Cluster c) lines.old }
        requires actor { actor < actor_count N.setup }
        requires moment { now < MOMENT_LIMIT }
        ensures step { SomeHeld N.setup N.programs N.desks c (Offered c actor (home_of N.setup actor) now result.entry result.value) }
        ensures course { IfSome result.value (OnCourse N.setup N.programs) }
        ensures line { lines.new ≡ fewer_at (spots.Cluster c) lines.old }
    {
        let along = self.frame.along(actor, c);
        let line = lines.take(&self.desks, Spot::Cluster(c));
        self.locks
            .offer(rt, gate, &self.desks, actor, c, along, now, line)
    }

    /// The load of a cluster for a bucket, in microseconds for each processor; none exactly where the entry's answer is `Off`.
    pub fn look<R: Wait, G: Gate>(
        &self,
        rt: &R,
        gate: &G,
        actor: u8,
        c: u8,
        b: Bucket,
        now: u64,
        lines: &mut Lines<N>,
    ) -> Done<Option<u32>>
        requires there { c < cluster_count N.setup }
        requires line { 1 ≤ left_at (spots.Cluster c) lines.old }
        requires actor { actor < actor_count N.setup }
        requires moment { now < MOMENT_LIMIT }
        ensures step { SomeHeld N.setup N.programs N.desks c (Looked c actor b now result.entry result.value) }
        ensures line { lines.new ≡ fewer_at (spots.Cluster c) lines.old }
    {
        let line = lines.take(&self.desks, Spot::Cluster(c));
        self.locks
            .look(rt, gate, &self.desks, actor, c, b, now, line)
    }

    /// Turns the actor's home on or off.
    pub fn turn<R: Wait, G: Gate>(
        &self,
        rt: &R,
        gate: &G,
        actor: u8,
        on: bool,
        now: u64,
        lines: &mut Lines<N>,
    ) -> Done<()>
        requires line { 1 ≤ left_at (spots.Cluster (home_of N.setup actor)) lines.old }
        requires actor { actor < actor_count N.setup }
        requires moment { now < MOMENT_LIMIT }
        ensures step { SomeHeld N.setup N.programs N.desks (home_of N.setup actor) (Turned (home_of N.setup actor) actor on now result.entry) }
        ensures line { lines.new ≡ fewer_at (spots.Cluster (home_of N.setup actor)) lines.old }
    {
        let home = self.frame.setup().home(actor);
        let line = lines.take(&self.desks, Spot::Cluster(home));
        self.locks
            .turn(rt, gate, &self.desks, actor, home, on, now, line)
    }

    /// A thread goes to sleep for `span` microseconds.
    pub fn sleep<R: Wait, G: Gate>(
        &self,
        rt: &R,
        gate: &G,
        actor: u8,
        r: Rider<N>,
        span: u32,
        now: u64,
        lines: &mut Lines<N>,
    ) -> Done<()>
        requires line { 1 ≤ left_at spots.Yard lines.old }
        requires actor { actor < actor_count N.setup }
        requires moment { now < MOMENT_LIMIT }
        requires course { OnCourse N.setup N.programs r }
        ensures step { SomeYard N.setup N.programs N.desks (Slept actor r span now result.entry) }
        ensures line { lines.new ≡ fewer_at spots.Yard lines.old }
    {
        let line = lines.take(&self.desks, Spot::Yard);
        let mut held = locked(&self.yard, rt, gate, actor, Spot::Yard);
        held.keeps();
        held.sleep(&self.desks, actor, r, span, now, line)
    }

    /// Wakes the first blocked thread where it is due; none exactly where the entry's answer is a `Left`.
    pub fn wake_due<R: Wait, G: Gate>(
        &self,
        rt: &R,
        gate: &G,
        actor: u8,
        now: u64,
        lines: &mut Lines<N>,
    ) -> Done<Option<Rider<N>>>
        requires line { 1 ≤ left_at spots.Yard lines.old }
        requires actor { actor < actor_count N.setup }
        requires moment { now < MOMENT_LIMIT }
        ensures step { SomeYard N.setup N.programs N.desks (WokenDue actor now result.entry result.value) }
        ensures course { IfSome result.value (OnCourse N.setup N.programs) }
        ensures line { lines.new ≡ fewer_at spots.Yard lines.old }
    {
        let line = lines.take(&self.desks, Spot::Yard);
        let mut held = locked(&self.yard, rt, gate, actor, Spot::Yard);
        held.keeps();
        held.wake_due(&self.desks, actor, now, line)
    }

    /// Wakes the first blocked thread, due or not; none exactly where the entry's answer is a `Left`.
    pub fn wake_first<R: Wait, G: Gate>(
        &self,
        rt: &R,
        gate: &G,
        actor: u8,
        now: u64,
        lines: &mut Lines<N>,
    ) -> Done<Option<Rider<N>>>
        requires line { 1 ≤ left_at spots.Yard lines.old }
        requires actor { actor < actor_count N.setup }
        requires moment { now < MOMENT_LIMIT }
        ensures step { SomeYard N.setup N.programs N.desks (WokenFirst actor now result.entry result.value) }
        ensures course { IfSome result.value (OnCourse N.setup N.programs) }
        ensures line { lines.new ≡ fewer_at spots.Yard lines.old }
    {
        let line = lines.take(&self.desks, Spot::Yard);
        let mut held = locked(&self.yard, rt, gate, actor, Spot::Yard);
        held.keeps();
        held.wake_first(&self.desks, actor, now, line)
    }

    /// A thread ends.
    pub fn end<R: Wait, G: Gate>(
        &self,
        rt: &R,
        gate: &G,
        actor: u8,
        r: Rider<N>,
        now: u64,
        lines: &mut Lines<N>,
    ) -> Done<()>
        requires line { 1 ≤ left_at spots.Yard lines.old }
        requires actor { actor < actor_count N.setup }
        requires moment { now < MOMENT_LIMIT }
        ensures step { SomeYard N.setup N.programs N.desks (Ended actor r now result.entry) }
        ensures line { lines.new ≡ fewer_at spots.Yard lines.old }
    {
        let line = lines.take(&self.desks, Spot::Yard);
        let mut held = locked(&self.yard, rt, gate, actor, Spot::Yard);
        held.keeps();
        held.end(&self.desks, actor, r, now, line)
    }

    /// Whether a power of a cluster turns it on or off in a numbered turn. None exactly where there is no such power, or
    /// the turn is at least the turns that powers are told for.
    pub fn power(&self, cluster: u8, turn: u32) -> Option<bool>
        ensures { result ≡ power_told N.powers self.now cluster turn }
    {
        self.frame.power(cluster, turn)
    }

    /// The program of a name. None exactly where no program has it.
    pub fn program(&self, name: u32) -> Option<ProgramLine>
        ensures { option_map program_of result ≡ program_named N.programs name }
    {
        self.frame.program(name)
    }

    /// The edges.
    pub fn edges(&self) -> &Edges
        ensures { result.now ≡ edges_of N.setup }
    {
        self.frame.edges()
    }

    /// The setup.
    pub fn setup(&self) -> &Setup
        ensures { result.now ≡ N.setup }
    {
        self.frame.setup()
    }

    /// The desks.
    pub fn desks(&self) -> &DeskSet
        ensures { result.now ≡ N.desks }
    {
        &self.desks
    }
}
