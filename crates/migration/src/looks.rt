//! Looks at clusters, and the aim by them.

ghost use Rattle.std.specs.List.{list_any};
ghost use Rattle.std.specs.Prelude.{◌≡◌, ◌<◌};
ghost use Rattle.flat_policy.specs.Policy.Aim.{cluster_or as cluster_of, lighter};
ghost use Rattle.flat_policy.specs.Policy.Setup.{SetupParts, migrates, numbers_below};
ghost use Rattle.edge_matrix.specs.EdgeTables.{edges_of};
ghost use Rattle.migration.specs.Looks.{is_below, target_of, targeted, with_candidate};

use crate::LookFirst;
use edge_matrix::Edges;
use sched_base::Facts;
use sched_base::limits::MOST_CLUSTERS;
use std::marker::Model;

/// What a look at a cluster saw.
#[derive(Clone, Copy, Debug, PartialEq, Eq)]
enum Note {
    /// Its load, in microseconds.
    Load(u32),
    /// That it is off.
    Off,
}

/// A cluster that a thread may move to, with its load as seen and the weight of the edge to it.
#[derive(Clone, Copy)]
struct Candidate {
    cluster: u8,
    weighed: u64,
}

/// What was seen of the eight clusters since the looks were last forgotten. Contracts see a list
/// of eight looks, or none, by cluster; those at a setup's clusters are `looks_among` them, which
/// the machine's hands keep.
#[derive(Debug, Drop)]
pub struct Looks {
    notes: [Option<Note>; MOST_CLUSTERS],
}

impl Model for Looks {
    ghost use Rattle.std.specs.Prelude.{List, Option, map};
    ghost use Rattle.flat_policy.specs.Policy.Aim.{Look};

    ghost Value = { List (Option Look) };

    ghost use Rattle.migration.specs.Looks.{noted};

    ghost view = { λ looks. map noted looks.notes };
}

impl Looks {
    ghost use Rattle.std.specs.Prelude.{◌≡◌, ◌<◌, None, Option, Some, ℕ, find, is_none, length, map, replicate, slice_set};
    ghost use Rattle.flat_policy.specs.Policy.Aim.{aim, aim_among, off, loaded, look_at, movable, needed_by, not_looked, targets};
    ghost use Rattle.flat_policy.specs.Policy.BuiltSetups.{IsSetup};
    ghost use Rattle.flat_policy.specs.Policy.Machine.{no_looks};
    ghost use Rattle.flat_policy.specs.Policy.Setup.{SetupParts, cluster_count, numbers_below};
    ghost use Rattle.edge_matrix.specs.EdgeTables.{edges_of};
    ghost use Rattle.migration.specs.Looks.{IsAim, best_among, candidate_at, lacks_look, looks_among, noted, targeted};

    /// No cluster was looked at.
    pub fn new() -> Looks
        ensures none { result ≡ replicate MOST_CLUSTERS None }
        ensures among { (setup : SetupParts) → IsSetup setup → looks_among setup result ≡ no_looks setup }
    {
        Looks {
            notes: [None; MOST_CLUSTERS],
        }
    }

    /// Forgets all looks.
    pub fn clear(&mut self)
        ensures none { self.new ≡ replicate MOST_CLUSTERS None }
        ensures among { (setup : SetupParts) → IsSetup setup → looks_among setup self.new ≡ no_looks setup }
    {
        self.notes = [None; MOST_CLUSTERS];
    }

    /// Notes that cluster `c` was seen with a load, in microseconds. The other looks stay.
    pub fn note(&mut self, c: u8, load: u32)
        requires { c < MOST_CLUSTERS }
        ensures noted { self.new ≡ slice_set self.old c (Some (loaded load)) }
        ensures among { (setup : SetupParts) → c < cluster_count setup → looks_among setup self.new ≡ slice_set (looks_among setup self.old) c (Some (loaded load)) }
    {
        self.notes[c as usize] = Some(Note::Load(load));
    }

    /// Notes that cluster `c` was seen off. The other looks stay.
    pub fn note_off(&mut self, c: u8)
        requires { c < MOST_CLUSTERS }
        ensures noted { self.new ≡ slice_set self.old c (Some off) }
        ensures among { (setup : SetupParts) → c < cluster_count setup → looks_among setup self.new ≡ slice_set (looks_among setup self.old) c (Some off) }
    {
        self.notes[c as usize] = Some(Note::Off);
    }

    /// The cluster that a thread should enter. A bound thread enters the cluster that it is bound
    /// to; another one its preferred cluster or the best of those that it may move to.
    ///
    /// `LookFirst` comes exactly where a cluster that the aim needs was not looked at, and names
    /// the lowest one: the preferred cluster and those that the thread may move to from there, or
    /// none where it may move to none or is bound.
    pub fn aim(&self, edges: &Edges, t: &Facts) -> Result<u8, LookFirst>
        requires { t.now.prefer < MOST_CLUSTERS }
        ensures aim { (setup : SetupParts) → IsSetup setup → edges.now ≡ edges_of setup → IsAim setup self.now t.now result }
        ensures among { (setup : SetupParts) → IsSetup setup → edges.now ≡ edges_of setup → t.now.prefer < cluster_count setup → IsAim setup (looks_among setup self.now) t.now result }
    {
        if let Some(bound) = t.bound {
            return Ok(bound);
        }
        match self.missing(edges, t.prefer) {
            Some(cluster) => Err(LookFirst { cluster }),
            None => Ok(self.aim_from(edges, t.prefer)),
        }
    }

    /// The note on cluster `c`.
    fn note_at(&self, c: u8) -> Option<Note>
        requires { c < 8 }
        ensures { noted result ≡ look_at self.now c }
    {
        self.notes[c as usize]
    }

    /// The lowest cluster that an aim of an unbound thread needs and that was not looked at.
    fn missing(&self, edges: &Edges, prefer: u8) -> Option<u8>
        requires { prefer < 8 }
        ensures { (setup : SetupParts) → IsSetup setup → edges.now ≡ edges_of setup → result ≡ find (λ c. is_none (look_at self.now c)) (needed_by setup prefer (movable setup prefer)) }
    {
        if !moves(edges, prefer) {
            return None;
        }
        for c in 0..8 {
            if self.lacks(edges, prefer, c) {
                return Some(c);
            }
        }
        None
    }

    /// Whether the preferred cluster, or one that a thread may move to from there, was not looked
    /// at.
    fn lacks(&self, edges: &Edges, prefer: u8, c: u8) -> bool
        requires prefer { prefer < 8 }
        requires cluster { c < 8 }
        ensures { (setup : SetupParts) → edges.now ≡ edges_of setup → result ≡ lacks_look setup self.now prefer c }
    {
        (c == prefer || edges.migrate(prefer, c)) && self.note_at(c).is_none()
    }

    /// The aim of an unbound thread, where no look is missing.
    fn aim_from(&self, edges: &Edges, prefer: u8) -> u8
        requires { prefer < 8 }
        ensures { (setup : SetupParts) → IsSetup setup → edges.now ≡ edges_of setup → result ≡ aim_among prefer (look_at self.now prefer) (targets setup self.now prefer) }
    {
        match self.note_at(prefer) {
            Some(Note::Load(load)) => cluster_or(prefer, self.best(edges, prefer, Some(load))),
            Some(Note::Off) => cluster_or(prefer, self.best(edges, prefer, None)),
            None => prefer,
        }
    }

    /// The lightest of the clusters that a thread may move to and whose load was seen, among those
    /// below `most` where that is given.
    fn best(&self, edges: &Edges, prefer: u8, most: Option<u32>) -> Option<Candidate>
        requires { prefer < 8 }
        ensures { (setup : SetupParts) → edges.now ≡ edges_of setup → targeted result ≡ best_among setup self.now prefer most None (numbers_below 8) }
    {
        let mut best = None;
        for c in 0..8 {
            best = better_of(best, self.candidate(edges, prefer, most, c));
        }
        best
    }

    /// Cluster `c` as one that a thread may move to, below `most` where that is given.
    fn candidate(&self, edges: &Edges, prefer: u8, most: Option<u32>, c: u8) -> Option<Candidate>
        requires prefer { prefer < 8 }
        requires cluster { c < 8 }
        ensures { (setup : SetupParts) → edges.now ≡ edges_of setup → targeted result ≡ candidate_at setup self.now prefer most c }
    {
        if !edges.migrate(prefer, c) {
            return None;
        }
        let Some(Note::Load(load)) = self.note_at(c) else {
            return None;
        };
        let weighed = load as u64 + edges.weight(prefer, c) as u64;
        if is_light(weighed, most) {
            Some(Candidate {
                cluster: c,
                weighed,
            })
        } else {
            None
        }
    }
}

/// Whether threads may move from a cluster to any other.
fn moves(edges: &Edges, prefer: u8) -> bool
    requires { prefer < 8 }
    ensures { (setup : SetupParts) → edges.now ≡ edges_of setup → result ≡ list_any (migrates setup prefer) (numbers_below 8) }
{
    for c in 0..8 {
        if edges.migrate(prefer, c) {
            return true;
        }
    }
    false
}

/// Whether a load with its weight is below `most`, where that is given.
fn is_light(weighed: u64, most: Option<u32>) -> bool
    ensures { result ≡ is_below most weighed }
{
    match most {
        Some(most) => weighed < most as u64,
        None => true,
    }
}

/// The better of the best so far and one more, where there is one.
fn better_of(best: Option<Candidate>, next: Option<Candidate>) -> Option<Candidate>
    ensures { targeted result ≡ with_candidate (targeted best) (targeted next) }
{
    match (best, next) {
        (Some(x), Some(y)) => Some(if is_lighter(y, x) { y } else { x }),
        (Some(x), None) => Some(x),
        (None, y) => y,
    }
}

/// Whether a cluster goes before another: it is lighter, or at one weight lower.
fn is_lighter(x: Candidate, y: Candidate) -> bool
    ensures { result ≡ lighter (target_of x) (target_of y) }
{
    x.weighed < y.weighed || x.weighed == y.weighed && x.cluster < y.cluster
}

/// The cluster of a candidate, or the preferred one where there is none.
fn cluster_or(prefer: u8, best: Option<Candidate>) -> u8
    ensures { result ≡ cluster_of prefer (targeted best) }
{
    match best {
        Some(x) => x.cluster,
        None => prefer,
    }
}
