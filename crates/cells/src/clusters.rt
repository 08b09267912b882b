//! The held clusters of a run, without locks.
ghost use Rattle.std.specs.Prelude.{◌≡◌, ◌<◌, ◌≢◌, ℕ, IfSome, IsSome, Some, length};
ghost use Rattle.flat_policy.specs.Policy.Aim.{MayEnter};
ghost use Rattle.flat_policy.specs.Policy.Setup.{actor_count, home_of, migrates, steal_mask};
ghost use Rattle.cells.specs.Courses.{OnCourse};
ghost use Rattle.cells.specs.Desks.{StandsAt, line_desk};
ghost use Rattle.cells.specs.Held.{HeldParts, Keeps};
ghost use Rattle.cells.specs.Stills.{StepsAt, StepsIn, held_at};
ghost use Rattle.cells.specs.Told.{Entered, Looked, Offered, Selected, Turned, after_entered, after_looked, after_offered, after_selected, after_turned};

mod ending;
mod giving;
mod making;

use crate::desk_set::DeskSet;
use crate::done::Done;
use crate::frame::Along;
use crate::held_cluster::HeldCluster;
use crate::rider::Rider;
use crate::run_name::RunName;
use flat_policy::cluster::Cluster;
pub(crate) use making::new_yard;
use rights::Share;
use sched_base::limits::MOMENT_LIMIT;
use sched_base::{Bucket, Ticket};
use std::marker::Model;

/// Eight places, each for the held cluster of its number. Contracts see what each holds.
pub(crate) struct Clusters<K: Cluster, N: RunName> {
    pub(crate) at0: Option<HeldCluster<K, N, 0>>,
    pub(crate) at1: Option<HeldCluster<K, N, 1>>,
    pub(crate) at2: Option<HeldCluster<K, N, 2>>,
    pub(crate) at3: Option<HeldCluster<K, N, 3>>,
    pub(crate) at4: Option<HeldCluster<K, N, 4>>,
    pub(crate) at5: Option<HeldCluster<K, N, 5>>,
    pub(crate) at6: Option<HeldCluster<K, N, 6>>,
    pub(crate) at7: Option<HeldCluster<K, N, 7>>,
}

impl<K: Cluster, N: RunName> Model for Clusters<K, N> {
    ghost use Rattle.std.specs.Prelude.{List, Option, [], ◌∷◌};
    ghost use Rattle.cells.specs.Held.{HeldParts};

    ghost Value = { List (Option HeldParts) };

    ghost view = { λ p. p.at0 ∷ p.at1 ∷ p.at2 ∷ p.at3 ∷ p.at4 ∷ p.at5 ∷ p.at6 ∷ p.at7 ∷ [] };
}

// A call on the place of a number and further arguments.
macro_rules! at_place {
    (mut $places:ident, $c:ident, $call:ident, $($more:expr),*) => {
        match $c {
            0 => $call(&mut $places.at0, $($more),*),
            1 => $call(&mut $places.at1, $($more),*),
            2 => $call(&mut $places.at2, $($more),*),
            3 => $call(&mut $places.at3, $($more),*),
            4 => $call(&mut $places.at4, $($more),*),
            5 => $call(&mut $places.at5, $($more),*),
            6 => $call(&mut $places.at6, $($more),*),
            7 => $call(&mut $places.at7, $($more),*),
            _ => unreachable!(),
        }
    };
    ($places:ident, $c:ident, $call:ident) => {
        match $c {
            0 => $call(&$places.at0),
            1 => $call(&$places.at1),
            2 => $call(&$places.at2),
            3 => $call(&$places.at3),
            4 => $call(&$places.at4),
            5 => $call(&$places.at5),
            6 => $call(&$places.at6),
            7 => $call(&$places.at7),
            _ => unreachable!(),
        }
    };
}

impl<K: Cluster, N: RunName> Clusters<K, N> {
    /// Does nothing. It tells a proof what each held cluster keeps.
    pub(crate) fn keeps(&self)
        ensures { (c : ℕ) (h : HeldParts) → held_at self.now c ≡ Some h → Keeps N.setup N.programs N.desks c h }
    {
        keeps_in(&self.at0);
        keeps_in(&self.at1);
        keeps_in(&self.at2);
        keeps_in(&self.at3);
        keeps_in(&self.at4);
        keeps_in(&self.at5);
        keeps_in(&self.at6);
        keeps_in(&self.at7);
    }

    /// A thread enters a held cluster at the tail.
    pub(crate) fn enter(
        &mut self,
        desks: &DeskSet,
        actor: u8,
        c: u8,
        r: Rider<N>,
        now: u64,
        line: Share,
    ) -> Done<Ticket>
        requires there { IsSome (held_at self.old c) }
        requires desks { desks.now ≡ N.desks }
        requires line { StandsAt N.desks (line_desk c) line.desk × (line.amount ≡ 1) }
        requires actor { actor < actor_count N.setup }
        requires moment { now < MOMENT_LIMIT }
        requires course { OnCourse N.setup N.programs r }
        requires may { MayEnter N.setup r c }
        ensures { StepsAt c self.old self.new (Entered c actor r now result.entry result.value) (after_entered r now result.entry result.value) }
    {
        at_place!(mut self, c, enter_in, desks, actor, r, now, line)
    }

    /// The pick of a held cluster leaves.
    pub(crate) fn select(
        &mut self,
        desks: &DeskSet,
        actor: u8,
        c: u8,
        now: u64,
        line: Share,
    ) -> Done<Option<Rider<N>>>
        requires there { IsSome (held_at self.old c) }
        requires desks { desks.now ≡ N.desks }
        requires line { StandsAt N.desks (line_desk c) line.desk × (line.amount ≡ 1) }
        requires actor { actor < actor_count N.setup }
        requires home { home_of N.setup actor ≡ c }
        requires moment { now < MOMENT_LIMIT }
        ensures step { StepsAt c self.old self.new (Selected actor now result.entry result.value) (after_selected now result.entry) }
        ensures course { IfSome result.value (OnCourse N.setup N.programs) }
    {
        at_place!(mut self, c, select_in, desks, actor, now, line)
    }

    /// The thread that a held cluster offers to the actor's home leaves.
    pub(crate) fn offer(
        &mut self,
        desks: &DeskSet,
        actor: u8,
        c: u8,
        along: Along,
        now: u64,
        line: Share,
    ) -> Done<Option<Rider<N>>>
        requires there { IsSome (held_at self.old c) }
        requires desks { desks.now ≡ N.desks }
        requires line { StandsAt N.desks (line_desk c) line.desk × (line.amount ≡ 1) }
        requires actor { actor < actor_count N.setup }
        requires home { home_of N.setup actor ≡ along.to }
        requires other { along.to ≢ c }
        requires edge { along.rebalance ≡ migrates N.setup c along.to }
        requires mask { along.mask ≡ steal_mask N.setup c along.to }
        requires moment { now < MOMENT_LIMIT }
        ensures step { StepsAt c self.old self.new (Offered c actor along.to now result.entry result.value) (after_offered along.to now result.entry) }
        ensures course { IfSome result.value (OnCourse N.setup N.programs) }
    {
        at_place!(mut self, c, offer_in, desks, actor, along, now, line)
    }

    /// The load of a held cluster for a bucket.
    pub(crate) fn look(
        &mut self,
        desks: &DeskSet,
        actor: u8,
        c: u8,
        b: Bucket,
        now: u64,
        line: Share,
    ) -> Done<Option<u32>>
        requires there { IsSome (held_at self.old c) }
        requires desks { desks.now ≡ N.desks }
        requires line { StandsAt N.desks (line_desk c) line.desk × (line.amount ≡ 1) }
        requires actor { actor < actor_count N.setup }
        requires moment { now < MOMENT_LIMIT }
        ensures { StepsAt c self.old self.new (Looked c actor b now result.entry result.value) (after_looked b now result.entry) }
    {
        at_place!(mut self, c, look_in, desks, actor, b, now, line)
    }

    /// Turns a held cluster on or off.
    pub(crate) fn turn(
        &mut self,
        desks: &DeskSet,
        actor: u8,
        c: u8,
        on: bool,
        now: u64,
        line: Share,
    ) -> Done<()>
        requires there { IsSome (held_at self.old c) }
        requires desks { desks.now ≡ N.desks }
        requires line { StandsAt N.desks (line_desk c) line.desk × (line.amount ≡ 1) }
        requires actor { actor < actor_count N.setup }
        requires moment { now < MOMENT_LIMIT }
        ensures { StepsAt c self.old self.new (Turned c actor on now result.entry) (after_turned on now result.entry) }
    {
        at_place!(mut self, c, turn_in, desks, actor, on, now, line)
    }

    /// Whether a held cluster is on.
    pub(crate) fn is_on(&self, c: u8) -> bool
        requires { IsSome (held_at self.now c) }
        ensures { IfSome (held_at self.now c) (λ (h : HeldParts). result ≡ h.cluster.flat.on) }
    {
        at_place!(self, c, is_on_in)
    }

    /// How many threads are queued at a held cluster.
    pub(crate) fn queued(&self, c: u8) -> u32
        requires { IsSome (held_at self.now c) }
        ensures { IfSome (held_at self.now c) (λ (h : HeldParts). result ≡ length h.cluster.flat.entries) }
    {
        at_place!(self, c, queued_in)
    }
}

// Tells what the held cluster of a place keeps, where there is one.
fn keeps_in<K: Cluster, N: RunName, const C: usize>(place: &Option<HeldCluster<K, N, C>>)
    ensures { (h : HeldParts) → place.now ≡ Some h → Keeps N.setup N.programs N.desks C h }
{
    match place {
        Some(held) => held.keeps(),
        None => (),
    }
}

// A thread enters the held cluster of a place.
fn enter_in<K: Cluster, N: RunName, const C: usize>(
    place: &mut Option<HeldCluster<K, N, C>>,
    desks: &DeskSet,
    actor: u8,
    r: Rider<N>,
    now: u64,
    line: Share,
) -> Done<Ticket>
    requires there { IsSome place.old }
    requires desks { desks.now ≡ N.desks }
    requires line { StandsAt N.desks (line_desk C) line.desk × (line.amount ≡ 1) }
    requires actor { actor < actor_count N.setup }
    requires moment { now < MOMENT_LIMIT }
    requires course { OnCourse N.setup N.programs r }
    requires may { MayEnter N.setup r C }
    ensures { StepsIn place.old place.new (Entered C actor r now result.entry result.value) (after_entered r now result.entry result.value) }
{
    match place {
        Some(held) => held.enter(desks, actor, r, false, now, line),
        None => unreachable!(),
    }
}

// The pick of the held cluster of a place leaves.
fn select_in<K: Cluster, N: RunName, const C: usize>(
    place: &mut Option<HeldCluster<K, N, C>>,
    desks: &DeskSet,
    actor: u8,
    now: u64,
    line: Share,
) -> Done<Option<Rider<N>>>
    requires there { IsSome place.old }
    requires desks { desks.now ≡ N.desks }
    requires line { StandsAt N.desks (line_desk C) line.desk × (line.amount ≡ 1) }
    requires actor { actor < actor_count N.setup }
    requires home { home_of N.setup actor ≡ C }
    requires moment { now < MOMENT_LIMIT }
    ensures step { StepsIn place.old place.new (Selected actor now result.entry result.value) (after_selected now result.entry) }
    ensures course { IfSome result.value (OnCourse N.setup N.programs) }
{
    match place {
        Some(held) => held.select(desks, actor, now, line),
        None => unreachable!(),
    }
}

// The thread that the held cluster of a place offers leaves.
fn offer_in<K: Cluster, N: RunName, const C: usize>(
    place: &mut Option<HeldCluster<K, N, C>>,
    desks: &DeskSet,
    actor: u8,
    along: Along,
    now: u64,
    line: Share,
) -> Done<Option<Rider<N>>>
    requires there { IsSome place.old }
    requires desks { desks.now ≡ N.desks }
    requires line { StandsAt N.desks (line_desk C) line.desk × (line.amount ≡ 1) }
    requires actor { actor < actor_count N.setup }
    requires home { home_of N.setup actor ≡ along.to }
    requires other { along.to ≢ C }
    requires edge { along.rebalance ≡ migrates N.setup C along.to }
    requires mask { along.mask ≡ steal_mask N.setup C along.to }
    requires moment { now < MOMENT_LIMIT }
    ensures step { StepsIn place.old place.new (Offered C actor along.to now result.entry result.value) (after_offered along.to now result.entry) }
    ensures course { IfSome result.value (OnCourse N.setup N.programs) }
{
    match place {
        Some(held) => {
            let Along {
                to,
                rebalance,
                mask,
            } = along;
            held.offer(desks, actor, to, rebalance, mask, now, line)
        }
        None => unreachable!(),
    }
}

// The load of the held cluster of a place for a bucket.
fn look_in<K: Cluster, N: RunName, const C: usize>(
    place: &mut Option<HeldCluster<K, N, C>>,
    desks: &DeskSet,
    actor: u8,
    b: Bucket,
    now: u64,
    line: Share,
) -> Done<Option<u32>>
    requires there { IsSome place.old }
    requires desks { desks.now ≡ N.desks }
    requires line { StandsAt N.desks (line_desk C) line.desk × (line.amount ≡ 1) }
    requires actor { actor < actor_count N.setup }
    requires moment { now < MOMENT_LIMIT }
    ensures { StepsIn place.old place.new (Looked C actor b now result.entry result.value) (after_looked b now result.entry) }
{
    match place {
        Some(held) => held.look(desks, actor, b, now, line),
        None => unreachable!(),
    }
}

// Turns the held cluster of a place on or off.
fn turn_in<K: Cluster, N: RunName, const C: usize>(
    place: &mut Option<HeldCluster<K, N, C>>,
    desks: &DeskSet,
    actor: u8,
    on: bool,
    now: u64,
    line: Share,
) -> Done<()>
    requires there { IsSome place.old }
    requires desks { desks.now ≡ N.desks }
    requires line { StandsAt N.desks (line_desk C) line.desk × (line.amount ≡ 1) }
    requires actor { actor < actor_count N.setup }
    requires moment { now < MOMENT_LIMIT }
    ensures { StepsIn place.old place.new (Turned C actor on now result.entry) (after_turned on now result.entry) }
{
    match place {
        Some(held) => held.turn(desks, actor, on, now, line),
        None => unreachable!(),
    }
}

// Whether the held cluster of a place is on.
fn is_on_in<K: Cluster, N: RunName, const C: usize>(place: &Option<HeldCluster<K, N, C>>) -> bool
    requires { IsSome place.now }
    ensures { IfSome place.now (λ (h : HeldParts). result ≡ h.cluster.flat.on) }
{
    match place {
        Some(held) => held.is_on(),
        None => unreachable!(),
    }
}

// How many threads are queued at the held cluster of a place.
fn queued_in<K: Cluster, N: RunName, const C: usize>(place: &Option<HeldCluster<K, N, C>>) -> u32
    requires { IsSome place.now }
    ensures { IfSome place.now (λ (h : HeldParts). result ≡ length h.cluster.flat.entries) }
{
    match place {
        Some(held) => held.len(),
        None => unreachable!(),
    }
}
