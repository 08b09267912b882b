//! The held clusters of a run, each behind a lock of its own.
ghost use Rattle.std.specs.Prelude.{◌≡◌, ◌<◌, ◌≢◌, IfSome, IsSome, false, is_some, map, slice_index_or, true};
ghost use Rattle.flat_policy.specs.Policy.Aim.{MayEnter};
ghost use Rattle.flat_policy.specs.Policy.Setup.{actor_count, home_of, migrates, steal_mask};
ghost use Rattle.cells.specs.Courses.{OnCourse};
ghost use Rattle.cells.specs.Desks.{StandsAt, line_desk};
ghost use Rattle.cells.specs.Floors.{SomeHeld};
ghost use Rattle.cells.specs.Told.{Entered, Looked, Offered, Selected, Turned};

use crate::clusters::Clusters;
use crate::desk_set::DeskSet;
use crate::done::Done;
use crate::frame::Along;
use crate::held_cluster::HeldCluster;
use crate::rider::Rider;
use crate::run_name::RunName;
use flat_policy::cluster::Cluster;
use ports::{Gate, Point};
use rights::Share;
use sched_base::limits::MOMENT_LIMIT;
use sched_base::{Bucket, Spot, Ticket};
use std::marker::Model;
use std::sync::{Mutex, MutexGuard, Wait};

/// Eight places, each for a lock over the held cluster of its number. Contracts see which are filled.
pub(crate) struct ClusterLocks<K: Cluster, N: RunName> {
    pub(crate) at0: Option<Mutex<HeldCluster<K, N, 0>>>,
    pub(crate) at1: Option<Mutex<HeldCluster<K, N, 1>>>,
    pub(crate) at2: Option<Mutex<HeldCluster<K, N, 2>>>,
    pub(crate) at3: Option<Mutex<HeldCluster<K, N, 3>>>,
    pub(crate) at4: Option<Mutex<HeldCluster<K, N, 4>>>,
    pub(crate) at5: Option<Mutex<HeldCluster<K, N, 5>>>,
    pub(crate) at6: Option<Mutex<HeldCluster<K, N, 6>>>,
    pub(crate) at7: Option<Mutex<HeldCluster<K, N, 7>>>,
}

impl<K: Cluster, N: RunName> Model for ClusterLocks<K, N> {
    ghost use Rattle.std.specs.Prelude.{Bool, List, [], is_some, ◌∷◌};

    ghost Value = { List Bool };

    ghost view = { λ p. is_some p.at0 ∷ is_some p.at1 ∷ is_some p.at2 ∷ is_some p.at3 ∷ is_some p.at4 ∷ is_some p.at5 ∷ is_some p.at6 ∷ is_some p.at7 ∷ [] };
}

// A call on the place of a number and further arguments.
macro_rules! behind {
    ($places:ident, $c:ident, $call:ident, $($more:expr),*) => {
        match $c {
            0 => $call(&$places.at0, $($more),*),
            1 => $call(&$places.at1, $($more),*),
            2 => $call(&$places.at2, $($more),*),
            3 => $call(&$places.at3, $($more),*),
            4 => $call(&$places.at4, $($more),*),
            5 => $call(&$places.at5, $($more),*),
            6 => $call(&$places.at6, $($more),*),
            7 => $call(&$places.at7, $($more),*),
            _ => unreachable!(),
        }
    };
}

impl<K: Cluster, N: RunName> ClusterLocks<K, N> {
    /// Puts each held cluster behind a lock of its own.
    pub(crate) fn of(clusters: Clusters<K, N>) -> ClusterLocks<K, N>
        ensures { result ≡ map is_some clusters }
    {
        let Clusters {
            at0,
            at1,
            at2,
            at3,
            at4,
            at5,
            at6,
            at7,
        } = clusters;
        ClusterLocks {
            at0: lock_over(at0),
            at1: lock_over(at1),
            at2: lock_over(at2),
            at3: lock_over(at3),
            at4: lock_over(at4),
            at5: lock_over(at5),
            at6: lock_over(at6),
            at7: lock_over(at7),
        }
    }

    /// Takes each held cluster out of its lock.
    pub(crate) fn into_clusters(self) -> Clusters<K, N>
        ensures { map is_some result ≡ self }
    {
        let ClusterLocks {
            at0,
            at1,
            at2,
            at3,
            at4,
            at5,
            at6,
            at7,
        } = self;
        Clusters {
            at0: out_of(at0),
            at1: out_of(at1),
            at2: out_of(at2),
            at3: out_of(at3),
            at4: out_of(at4),
            at5: out_of(at5),
            at6: out_of(at6),
            at7: out_of(at7),
        }
    }

    /// A thread enters a held cluster at the tail.
    pub(crate) fn enter<R: Wait, G: Gate>(
        &self,
        rt: &R,
        gate: &G,
        desks: &DeskSet,
        actor: u8,
        c: u8,
        r: Rider<N>,
        now: u64,
        line: Share,
    ) -> Done<Ticket>
        requires there { slice_index_or self.now c false ≡ true }
        requires desks { desks.now ≡ N.desks }
        requires line { StandsAt N.desks (line_desk c) line.desk × (line.amount ≡ 1) }
        requires actor { actor < actor_count N.setup }
        requires moment { now < MOMENT_LIMIT }
        requires course { OnCourse N.setup N.programs r }
        requires may { MayEnter N.setup r c }
        ensures { SomeHeld N.setup N.programs N.desks c (Entered c actor r now result.entry result.value) }
    {
        behind!(self, c, enter_behind, rt, gate, desks, actor, r, now, line)
    }

    /// The pick of a held cluster leaves.
    pub(crate) fn select<R: Wait, G: Gate>(
        &self,
        rt: &R,
        gate: &G,
        desks: &DeskSet,
        actor: u8,
        c: u8,
        now: u64,
        line: Share,
    ) -> Done<Option<Rider<N>>>
        requires there { slice_index_or self.now c false ≡ true }
        requires desks { desks.now ≡ N.desks }
        requires line { StandsAt N.desks (line_desk c) line.desk × (line.amount ≡ 1) }
        requires actor { actor < actor_count N.setup }
        requires home { home_of N.setup actor ≡ c }
        requires moment { now < MOMENT_LIMIT }
        ensures step { SomeHeld N.setup N.programs N.desks c (Selected actor now result.entry result.value) }
        ensures course { IfSome result.value (OnCourse N.setup N.programs) }
    {
        behind!(self, c, select_behind, rt, gate, desks, actor, now, line)
    }

    /// The thread that a held cluster offers to the actor's home leaves.
    pub(crate) fn offer<R: Wait, G: Gate>(
        &self,
        rt: &R,
        gate: &G,
        desks: &DeskSet,
        actor: u8,
        c: u8,
        along: Along,
        now: u64,
        line: Share,
    ) -> Done<Option<Rider<N>>>
        requires there { slice_index_or self.now c false ≡ true }
        requires desks { desks.now ≡ N.desks }
        requires line { StandsAt N.desks (line_desk c) line.desk × (line.amount ≡ 1) }
        requires actor { actor < actor_count N.setup }
        requires home { home_of N.setup actor ≡ along.to }
        requires other { along.to ≢ c }
        requires edge { along.rebalance ≡ migrates N.setup c along.to }
        requires mask { along.mask ≡ steal_mask N.setup c along.to }
        requires moment { now < MOMENT_LIMIT }
        ensures step { SomeHeld N.setup N.programs N.desks c (Offered c actor along.to now result.entry result.value) }
        ensures course { IfSome result.value (OnCourse N.setup N.programs) }
    {
        behind!(
            self,
            c,
            offer_behind,
            rt,
            gate,
            desks,
            actor,
            along,
            now,
            line
        )
    }

    /// The load of a held cluster for a bucket.
    pub(crate) fn look<R: Wait, G: Gate>(
        &self,
        rt: &R,
        gate: &G,
        desks: &DeskSet,
        actor: u8,
        c: u8,
        b: Bucket,
        now: u64,
        line: Share,
    ) -> Done<Option<u32>>
        requires there { slice_index_or self.now c false ≡ true }
        requires desks { desks.now ≡ N.desks }
        requires line { StandsAt N.desks (line_desk c) line.desk × (line.amount ≡ 1) }
        requires actor { actor < actor_count N.setup }
        requires moment { now < MOMENT_LIMIT }
        ensures { SomeHeld N.setup N.programs N.desks c (Looked c actor b now result.entry result.value) }
    {
        behind!(self, c, look_behind, rt, gate, desks, actor, b, now, line)
    }

    /// Turns a held cluster on or off.
    pub(crate) fn turn<R: Wait, G: Gate>(
        &self,
        rt: &R,
        gate: &G,
        desks: &DeskSet,
        actor: u8,
        c: u8,
        on: bool,
        now: u64,
        line: Share,
    ) -> Done<()>
        requires there { slice_index_or self.now c false ≡ true }
        requires desks { desks.now ≡ N.desks }
        requires line { StandsAt N.desks (line_desk c) line.desk × (line.amount ≡ 1) }
        requires actor { actor < actor_count N.setup }
        requires moment { now < MOMENT_LIMIT }
        ensures { SomeHeld N.setup N.programs N.desks c (Turned c actor on now result.entry) }
    {
        behind!(self, c, turn_behind, rt, gate, desks, actor, on, now, line)
    }
}

// Puts the held cluster of a place behind a lock.
fn lock_over<K: Cluster, N: RunName, const C: usize>(
    place: Option<HeldCluster<K, N, C>>,
) -> Option<Mutex<HeldCluster<K, N, C>>>
    ensures { is_some result ≡ is_some place }
{
    match place {
        Some(held) => Some(Mutex::new(held)),
        None => None,
    }
}

// Takes the held cluster of a place out of its lock.
fn out_of<K: Cluster, N: RunName, const C: usize>(
    place: Option<Mutex<HeldCluster<K, N, C>>>,
) -> Option<HeldCluster<K, N, C>>
    ensures { is_some result ≡ is_some place }
{
    match place {
        Some(lock) => Some(lock.into_inner()),
        None => None,
    }
}

// Waits for the lock of a place, and passes the gate before and after.
pub(crate) fn locked<'a, T, R: Wait, G: Gate>(
    lock: &'a Mutex<T>,
    rt: &R,
    gate: &G,
    actor: u8,
    spot: Spot,
) -> MutexGuard<'a, T> {
    gate.pass(actor, Point::BeforeStep);
    let held = lock.lock(rt);
    gate.pass(actor, Point::Holding(spot));
    held
}

// A thread enters the held cluster behind the lock of a place.
fn enter_behind<K: Cluster, N: RunName, R: Wait, G: Gate, const C: usize>(
    place: &Option<Mutex<HeldCluster<K, N, C>>>,
    rt: &R,
    gate: &G,
    desks: &DeskSet,
    actor: u8,
    r: Rider<N>,
    now: u64,
    line: Share,
) -> Done<Ticket>
    requires there { IsSome place.now }
    requires number { C < 8 }
    requires desks { desks.now ≡ N.desks }
    requires line { StandsAt N.desks (line_desk C) line.desk × (line.amount ≡ 1) }
    requires actor { actor < actor_count N.setup }
    requires moment { now < MOMENT_LIMIT }
    requires course { OnCourse N.setup N.programs r }
    requires may { MayEnter N.setup r C }
    ensures { SomeHeld N.setup N.programs N.desks C (Entered C actor r now result.entry result.value) }
{
    match place {
        Some(lock) => {
            let mut held = locked(lock, rt, gate, actor, Spot::Cluster(C as u8));
            held.keeps();
            held.enter(desks, actor, r, false, now, line)
        }
        None => unreachable!(),
    }
}

// The pick of the held cluster behind the lock of a place leaves.
fn select_behind<K: Cluster, N: RunName, R: Wait, G: Gate, const C: usize>(
    place: &Option<Mutex<HeldCluster<K, N, C>>>,
    rt: &R,
    gate: &G,
    desks: &DeskSet,
    actor: u8,
    now: u64,
    line: Share,
) -> Done<Option<Rider<N>>>
    requires there { IsSome place.now }
    requires number { C < 8 }
    requires desks { desks.now ≡ N.desks }
    requires line { StandsAt N.desks (line_desk C) line.desk × (line.amount ≡ 1) }
    requires actor { actor < actor_count N.setup }
    requires home { home_of N.setup actor ≡ C }
    requires moment { now < MOMENT_LIMIT }
    ensures step { SomeHeld N.setup N.programs N.desks C (Selected actor now result.entry result.value) }
    ensures course { IfSome result.value (OnCourse N.setup N.programs) }
{
    match place {
        Some(lock) => {
            let mut held = locked(lock, rt, gate, actor, Spot::Cluster(C as u8));
            held.keeps();
            held.select(desks, actor, now, line)
        }
        None => unreachable!(),
    }
}

// The thread that the held cluster behind the lock of a place offers leaves.
fn offer_behind<K: Cluster, N: RunName, R: Wait, G: Gate, const C: usize>(
    place: &Option<Mutex<HeldCluster<K, N, C>>>,
    rt: &R,
    gate: &G,
    desks: &DeskSet,
    actor: u8,
    along: Along,
    now: u64,
    line: Share,
) -> Done<Option<Rider<N>>>
    requires there { IsSome place.now }
    requires number { C < 8 }
    requires desks { desks.now ≡ N.desks }
    requires line { StandsAt N.desks (line_desk C) line.desk × (line.amount ≡ 1) }
    requires actor { actor < actor_count N.setup }
    requires home { home_of N.setup actor ≡ along.to }
    requires other { along.to ≢ C }
    requires edge { along.rebalance ≡ migrates N.setup C along.to }
    requires mask { along.mask ≡ steal_mask N.setup C along.to }
    requires moment { now < MOMENT_LIMIT }
    ensures step { SomeHeld N.setup N.programs N.desks C (Offered C actor along.to now result.entry result.value) }
    ensures course { IfSome result.value (OnCourse N.setup N.programs) }
{
    match place {
        Some(lock) => {
            let Along {
                to,
                rebalance,
                mask,
            } = along;
            let mut held = locked(lock, rt, gate, actor, Spot::Cluster(C as u8));
            held.keeps();
            held.offer(desks, actor, to, rebalance, mask, now, line)
        }
        None => unreachable!(),
    }
}

// The load of the held cluster behind the lock of a place for a bucket.
fn look_behind<K: Cluster, N: RunName, R: Wait, G: Gate, const C: usize>(
    place: &Option<Mutex<HeldCluster<K, N, C>>>,
    rt: &R,
    gate: &G,
    desks: &DeskSet,
    actor: u8,
    b: Bucket,
    now: u64,
    line: Share,
) -> Done<Option<u32>>
    requires there { IsSome place.now }
    requires number { C < 8 }
    requires desks { desks.now ≡ N.desks }
    requires line { StandsAt N.desks (line_desk C) line.desk × (line.amount ≡ 1) }
    requires actor { actor < actor_count N.setup }
    requires moment { now < MOMENT_LIMIT }
    ensures { SomeHeld N.setup N.programs N.desks C (Looked C actor b now result.entry result.value) }
{
    match place {
        Some(lock) => {
            let mut held = locked(lock, rt, gate, actor, Spot::Cluster(C as u8));
            held.keeps();
            held.look(desks, actor, b, now, line)
        }
        None => unreachable!(),
    }
}

// Turns the held cluster behind the lock of a place on or off.
fn turn_behind<K: Cluster, N: RunName, R: Wait, G: Gate, const C: usize>(
    place: &Option<Mutex<HeldCluster<K, N, C>>>,
    rt: &R,
    gate: &G,
    desks: &DeskSet,
    actor: u8,
    on: bool,
    now: u64,
    line: Share,
) -> Done<()>
    requires there { IsSome place.now }
    requires number { C < 8 }
    requires desks { desks.now ≡ N.desks }
    requires line { StandsAt N.desks (line_desk C) line.desk × (line.amount ≡ 1) }
    requires actor { actor < actor_count N.setup }
    requires moment { now < MOMENT_LIMIT }
    ensures { SomeHeld N.setup N.programs N.desks C (Turned C actor on now result.entry) }
{
    match place {
        Some(lock) => {
            let mut held = locked(lock, rt, gate, actor, Spot::Cluster(C as u8));
            held.keeps();
            held.turn(desks, actor, on, now, line)
        }
        None => unreachable!(),
    }
}
