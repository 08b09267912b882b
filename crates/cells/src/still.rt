//! The held values of a run together, without locks.
ghost use Rattle.std.specs.Prelude.{◌≡◌, ◌≢◌, ◌<◌, ◌≤◌, IfSome, length};
ghost use Rattle.std.specs.Option.{option_map};
ghost use Rattle.sched_base.specs.declared.Spot.TheVariants as spots;
ghost use Rattle.edge_matrix.specs.EdgeTables.{edges_of};
ghost use Rattle.flat_policy.specs.Policy.Aim.{MayEnter};
ghost use Rattle.flat_policy.specs.Policy.Setup.{actor_count, cluster_count, home_of};
ghost use Rattle.flat_policy.specs.Runs.Worker.{program_of as program_named};
ghost use Rattle.trace_text.specs.Runs.{program_of};
ghost use Rattle.cells.specs.Courses.{OnCourse};
ghost use Rattle.cells.specs.Frames.{power_told};
ghost use Rattle.cells.specs.Held.{HeldParts};
ghost use Rattle.cells.specs.Lines.{fewer_at, left_at};
ghost use Rattle.cells.specs.Stills.{KeepAll, StepsAt, held_at, with_clusters, with_yard};
ghost use Rattle.cells.specs.Told.{Ended, Entered, Looked, Offered, Selected, Slept, Turned, WokenDue, WokenFirst, after_ended, after_entered, after_looked, after_offered, after_selected, after_slept, after_turned, after_woken_due, after_woken_first};

mod ending;
mod giving;
mod making;

use crate::clusters::Clusters;
use crate::desk_set::DeskSet;
use crate::done::Done;
use crate::frame::Frame;
use crate::held_yard::HeldYard;
use crate::lines::Lines;
use crate::pack::Pack;
use crate::rider::Rider;
use crate::run_name::RunName;
use edge_matrix::Edges;
pub use ending::Closed;
use flat_policy::cluster::Cluster;
use flat_policy::journal::Journal;
use flat_policy::setup::Setup;
use flat_policy::texts::ProgramLine;
use sched_base::limits::MOMENT_LIMIT;
use sched_base::{Bucket, Spot, Ticket};
use std::marker::Model;

/// The held values of a run without locks, with its desks, setup, edges, programs and powers. It serves before the workers
/// start, after they are joined, and where one thread does all. Contracts see all its journals, queues, books and the
/// yard. No call waits.
pub struct Still<K: Cluster, N: RunName> {
    pub(crate) desks: DeskSet,
    pub(crate) clusters: Clusters<K, N>,
    pub(crate) yard: HeldYard<N>,
    pub(crate) frame: Frame<N>,
    /// Slot rights of the places that are not filled.
    pub(crate) stock: Pack<N>,
    /// No line rights, from which none are split off for the places that are not filled.
    pub(crate) no_lines: Lines<N>,
    /// Room for the journals when all ends.
    pub(crate) journals: Vec<Journal>,
}

impl<K: Cluster, N: RunName> Model for Still<K, N> {
    ghost use Rattle.std.specs.Prelude.{vec_capacity, vec_len, ◌≡◌, ◌≤◌};
    ghost use Rattle.flat_policy.specs.Policy.Setup.{cluster_count};
    ghost use Rattle.cells.specs.Packs.{yard_amounts};
    ghost use Rattle.cells.specs.Stills.{HoldBelow, StillParts};

    ghost Value = { StillParts };

    ghost view = { λ s. record { clusters = s.clusters; yard = s.yard; stock = s.stock; turns = s.frame } };

    ghost invariant = { λ s. (s.desks ≡ N.desks) × HoldBelow (cluster_count N.setup) s.clusters × (s.no_lines ≡ yard_amounts 0 0) × (vec_len s.journals ≡ 0) × (9 ≤ vec_capacity s.journals) };
}

impl<K: Cluster, N: RunName> Still<K, N> {
    /// Does nothing. It tells a proof what all held values keep, and which places are filled.
    pub fn keeps(&self)
        ensures { KeepAll N.setup N.programs N.desks self.now }
    {
        self.clusters.keeps();
        self.yard.keeps();
    }

    /// A thread enters a cluster at the tail: `HeldCluster::enter`, with one line right of the cluster.
    pub fn enter(
        &mut self,
        actor: u8,
        c: u8,
        r: Rider<N>,
        now: u64,
        lines: &mut Lines<N>,
    ) -> Done<Ticket>
        requires there { c < cluster_count N.setup }
        requires line { 1 ≤ left_at (spots.Cluster c) lines.old }
        requires actor { actor < actor_count N.setup }
        requires moment { now < MOMENT_LIMIT }
        requires course { OnCourse N.setup N.programs r }
        requires may { MayEnter N.setup r c }
        ensures step { StepsAt c self.old.clusters self.new.clusters (Entered c actor r now result.entry result.value) (after_entered r now result.entry result.value) }
        ensures others { self.new ≡ with_clusters self.new.clusters self.old }
        ensures line { lines.new ≡ fewer_at (spots.Cluster c) lines.old }
    {
        let line = lines.take(&self.desks, Spot::Cluster(c));
        self.clusters.enter(&self.desks, actor, c, r, now, line)
    }

    /// The pick of the actor's home leaves: `HeldCluster::select`, with one line right of the home.
    pub fn select(&mut self, actor: u8, now: u64, lines: &mut Lines<N>) -> Done<Option<Rider<N>>>
        requires line { 1 ≤ left_at (spots.Cluster (home_of N.setup actor)) lines.old }
        requires actor { actor < actor_count N.setup }
        requires moment { now < MOMENT_LIMIT }
        ensures step { StepsAt (home_of N.setup actor) self.old.clusters self.new.clusters (Selected actor now result.entry result.value) (after_selected now result.entry) }
        ensures course { IfSome result.value (OnCourse N.setup N.programs) }
        ensures others { self.new ≡ with_clusters self.new.clusters self.old }
        ensures line { lines.new ≡ fewer_at (spots.Cluster (home_of N.setup actor)) lines.old }
    {
        let home = self.frame.setup().home(actor);
        let line = lines.take(&self.desks, Spot::Cluster(home));
        self.clusters.select(&self.desks, actor, home, now, line)
    }

    /// The thread that cluster `c` offers to the actor's home, another cluster, leaves: `HeldCluster::offer`, with one line
    /// right of `c`.
    pub fn offer(
        &mut self,
        actor: u8,
        c: u8,
        now: u64,
        lines: &mut Lines<N>,
    ) -> Done<Option<Rider<N>>>
        requires there { c < cluster_count N.setup }
        requires other { home_of N.setup actor ≢ c }
        requires line { 1 ≤ left_at (spots.Cluster c) lines.old }
        requires actor { actor < actor_count N.setup }
        requires moment { now < MOMENT_LIMIT }
        ensures step { StepsAt c self.old.clusters self.new.clusters (Offered c actor (home_of N.setup actor) now result.entry result.value) (after_offered (home_of N.setup actor) now result.entry) }
        ensures course { IfSome result.value (OnCourse N.setup N.programs) }
        ensures others { self.new ≡ with_clusters self.new.clusters self.old }
        ensures line { lines.new ≡ fewer_at (spots.Cluster c) lines.old }
    {
        let along = self.frame.along(actor, c);
        let line = lines.take(&self.desks, Spot::Cluster(c));
        self.clusters.offer(&self.desks, actor, c, along, now, line)
    }

    /// The load of a cluster for a bucket: `HeldCluster::look`, with one line right of the cluster.
    pub fn look(
        &mut self,
        actor: u8,
        c: u8,
        b: Bucket,
        now: u64,
        lines: &mut Lines<N>,
    ) -> Done<Option<u32>>
        requires there { c < cluster_count N.setup }
        requires line { 1 ≤ left_at (spots.Cluster c) lines.old }
        requires actor { actor < actor_count N.setup }
        requires moment { now < MOMENT_LIMIT }
        ensures step { StepsAt c self.old.clusters self.new.clusters (Looked c actor b now result.entry result.value) (after_looked b now result.entry) }
        ensures others { self.new ≡ with_clusters self.new.clusters self.old }
        ensures line { lines.new ≡ fewer_at (spots.Cluster c) lines.old }
    {
        let line = lines.take(&self.desks, Spot::Cluster(c));
        self.clusters.look(&self.desks, actor, c, b, now, line)
    }

    /// Turns the actor's home on or off: `HeldCluster::turn`, with one line right of the home.
    pub fn turn(&mut self, actor: u8, on: bool, now: u64, lines: &mut Lines<N>) -> Done<()>
        requires line { 1 ≤ left_at (spots.Cluster (home_of N.setup actor)) lines.old }
        requires actor { actor < actor_count N.setup }
        requires moment { now < MOMENT_LIMIT }
        ensures step { StepsAt (home_of N.setup actor) self.old.clusters self.new.clusters (Turned (home_of N.setup actor) actor on now result.entry) (after_turned on now result.entry) }
        ensures others { self.new ≡ with_clusters self.new.clusters self.old }
        ensures line { lines.new ≡ fewer_at (spots.Cluster (home_of N.setup actor)) lines.old }
    {
        let home = self.frame.setup().home(actor);
        let line = lines.take(&self.desks, Spot::Cluster(home));
        self.clusters.turn(&self.desks, actor, home, on, now, line)
    }

    /// A thread goes to sleep: `HeldYard::sleep`, with one line right of the yard.
    pub fn sleep(
        &mut self,
        actor: u8,
        r: Rider<N>,
        span: u32,
        now: u64,
        lines: &mut Lines<N>,
    ) -> Done<()>
        requires line { 1 ≤ left_at spots.Yard lines.old }
        requires actor { actor < actor_count N.setup }
        requires moment { now < MOMENT_LIMIT }
        requires course { OnCourse N.setup N.programs r }
        ensures step { Slept actor r span now result.entry self.old.yard }
        ensures held { self.new ≡ with_yard (after_slept r span now result.entry self.old.yard) self.old }
        ensures line { lines.new ≡ fewer_at spots.Yard lines.old }
    {
        let line = lines.take(&self.desks, Spot::Yard);
        self.yard.sleep(&self.desks, actor, r, span, now, line)
    }

    /// Wakes the first blocked thread where it is due: `HeldYard::wake_due`, with one line right of the yard.
    pub fn wake_due(&mut self, actor: u8, now: u64, lines: &mut Lines<N>) -> Done<Option<Rider<N>>>
        requires line { 1 ≤ left_at spots.Yard lines.old }
        requires actor { actor < actor_count N.setup }
        requires moment { now < MOMENT_LIMIT }
        ensures step { WokenDue actor now result.entry result.value self.old.yard }
        ensures course { IfSome result.value (OnCourse N.setup N.programs) }
        ensures held { self.new ≡ with_yard (after_woken_due now result.entry self.old.yard) self.old }
        ensures line { lines.new ≡ fewer_at spots.Yard lines.old }
    {
        let line = lines.take(&self.desks, Spot::Yard);
        self.yard.wake_due(&self.desks, actor, now, line)
    }

    /// Wakes the first blocked thread, due or not: `HeldYard::wake_first`, with one line right of the yard.
    pub fn wake_first(
        &mut self,
        actor: u8,
        now: u64,
        lines: &mut Lines<N>,
    ) -> Done<Option<Rider<N>>>
        requires line { 1 ≤ left_at spots.Yard lines.old }
        requires actor { actor < actor_count N.setup }
        requires moment { now < MOMENT_LIMIT }
        ensures step { WokenFirst actor now result.entry result.value self.old.yard }
        ensures course { IfSome result.value (OnCourse N.setup N.programs) }
        ensures held { self.new ≡ with_yard (after_woken_first now result.entry self.old.yard) self.old }
        ensures line { lines.new ≡ fewer_at spots.Yard lines.old }
    {
        let line = lines.take(&self.desks, Spot::Yard);
        self.yard.wake_first(&self.desks, actor, now, line)
    }

    /// A thread ends: `HeldYard::end`, with one line right of the yard.
    pub fn end(&mut self, actor: u8, r: Rider<N>, now: u64, lines: &mut Lines<N>) -> Done<()>
        requires line { 1 ≤ left_at spots.Yard lines.old }
        requires actor { actor < actor_count N.setup }
        requires moment { now < MOMENT_LIMIT }
        ensures step { Ended actor r now result.entry self.old.yard }
        ensures held { self.new ≡ with_yard (after_ended r now result.entry self.old.yard) self.old }
        ensures line { lines.new ≡ fewer_at spots.Yard lines.old }
    {
        let line = lines.take(&self.desks, Spot::Yard);
        self.yard.end(&self.desks, actor, r, now, line)
    }

    /// Whether a cluster is on.
    pub fn is_on(&self, c: u8) -> bool
        requires { c < cluster_count N.setup }
        ensures { IfSome (held_at self.now.clusters c) (λ (h : HeldParts). result ≡ h.cluster.flat.on) }
    {
        self.clusters.is_on(c)
    }

    /// How many threads are queued at a cluster.
    pub fn queued(&self, c: u8) -> u32
        requires { c < cluster_count N.setup }
        ensures { IfSome (held_at self.now.clusters c) (λ (h : HeldParts). result ≡ length h.cluster.flat.entries) }
    {
        self.clusters.queued(c)
    }

    /// How many threads are blocked.
    pub fn blocked(&self) -> u32
        ensures { result ≡ length self.now.yard.yard.blocked }
    {
        self.yard.blocked()
    }

    /// Whether a power of a cluster turns it on or off in a numbered turn. None exactly where there is no such power, or
    /// the turn is at least the turns that powers are told for.
    pub fn power(&self, cluster: u8, turn: u32) -> Option<bool>
        ensures { result ≡ power_told N.powers self.now.turns cluster turn }
    {
        self.frame.power(cluster, turn)
    }

    /// The program of a name. None exactly where no program has it.
    pub fn program(&self, name: u32) -> Option<ProgramLine>
        ensures { option_map program_of result ≡ program_named N.programs name }
    {
        self.frame.program(name)
    }

    /// The desks.
    pub fn desks(&self) -> &DeskSet
        ensures { result.now ≡ N.desks }
    {
        &self.desks
    }

    /// The edges.
    pub fn edges(&self) -> &Edges
        ensures { result.now ≡ edges_of N.setup }
    {
        self.frame.edges()
    }

    /// The setup.
    pub fn setup(&self) -> &Setup
        ensures { result.now ≡ N.setup }
    {
        self.frame.setup()
    }
}
