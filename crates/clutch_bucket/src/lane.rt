//! The units of a lane, and what is asked of them.

ghost use Rattle.std.specs.Prelude.{◌≡◌, ◌<◌, ◌≤◌, ◌↔◌, ◌+◌, ◌-◌, ◌^◌, ℕ, IfOk, IfSome, IsNone, None, false, length, replicate};
ghost use Rattle.flat_policy.specs.Laws.Picks.{PrecedesOrders};
ghost use Rattle.flat_policy.specs.Laws.Refreshing.{with_turns_of};
ghost use Rattle.flat_policy.specs.Laws.Units.{FirstStandsInClutch, IsFirstClutch};
ghost use Rattle.flat_policy.specs.Policy.Precedence.{clutch_priority};
ghost use Rattle.flat_policy.specs.Policy.Queue.{Clutch, Flat, clutch_entries, empty_flat, has_entries, lane, lane_entries, no_spans};
ghost use Rattle.flat_policy.specs.Policy.WellFormed.{WellFormed};
ghost use Rattle.link_arena.specs.Arena.{Arena as Map};
ghost use Rattle.pairing_heap.specs.Laws.{FirstIsLeast, HeldAreLive, StandsWhenEmpty};
ghost use Rattle.thread_queue.specs.Item.{key_of_item, key_precedes};
ghost use Rattle.thread_queue.specs.Laws.{FirstIsChosen, PushedStaysApart, RemovedIsLacked, RemovedStaysApart, SettledStaysApart};
ghost use Rattle.thread_queue.specs.declared.item.Item.{Item as Stored};
ghost use Rattle.clutch_bucket.specs.Lane.{Follows, IsBest, HasLaneSlot, LaneStands, UnitsStand, groups, no_queue, queue_at, rank_at, top_at, unit_of};
ghost use Rattle.clutch_bucket.specs.Renewing.{KeysAreOf, is_pri, renewed_turn, with_renewed};

mod entering;
mod leaving;
mod refreshing;
#[cfg(test)]
mod tests;

use crate::{Ranks, UnitKey};
use flat_policy::laws as policy;
use interactivity::Stats;
use link_arena::Arena;
use pairing_heap::{Steps, laws as heaps};
use sched_base::Bucket;
use sched_base::limits::MOST_GROUPS;
use std::alloc::{AllocError, Global};
use std::marker::Model;
use std::sync::ledger::Ledger;
use thread_queue::{Item, ThreadQueue, laws as queues};

/// The units of one unbound lane, one for each group, in order of greater priority, then lower turn. Their entries are slots of an
/// arena of items.
#[derive(Drop)]
pub struct LaneUnits {
    bucket: Bucket,
    queues: Vec<ThreadQueue>,
    stats: Vec<Stats>,
    ranks: Ranks,
    len: u32,
    // Room for the slots of one unit, for a refresh.
    slots: Vec<u32>,
}

impl Model for LaneUnits {
    ghost use Rattle.std.specs.Prelude.{◌≡◌, ◌≤◌, length, vec_capacity};
    ghost use Rattle.clutch_bucket.specs.Lane.{Lane};

    ghost Value = { Lane };

    ghost view = { λ l. record {
      bucket = l.bucket;
      queues = l.queues.items;
      spans = l.stats.items;
      ranks = l.ranks;
      len = l.len;
    } };

    ghost invariant = { λ l.
        (length l.stats.items ≡ length l.queues.items)
        × ((length l.ranks ≡ length l.queues.items)
        × ((length l.queues.items ≤ 64) × ((4096 ≤ vec_capacity l.slots) × (l.len ≤ 4096)))) };
}

impl LaneUnits {
    /// The units of so many groups, all empty, with room for all.
    pub fn new(alloc: Global, bucket: Bucket, groups: u8) -> Result<LaneUnits, AllocError>
        requires groups { groups ≤ MOST_GROUPS }
        ensures made { IfOk result (λ made. made ≡ record {
          bucket = bucket;
          queues = replicate groups no_queue;
          spans = replicate groups no_spans;
          ranks = replicate groups None;
          len = 0;
        }) }
        ensures stands { IfOk result (λ made. (arena : Map Stored) → LaneStands arena made) }
        ensures follows { IfOk result (λ made. (arena : Map Stored) → Follows arena made (empty_flat groups)) }
    {
        queue_laws();
        LaneUnits::empty(alloc, bucket, groups)
    }

    // The units of so many groups, all empty.
    fn empty(alloc: Global, bucket: Bucket, groups: u8) -> Result<LaneUnits, AllocError>
        requires groups { groups ≤ MOST_GROUPS }
        ensures { IfOk result (λ made. made ≡ record {
          bucket = bucket;
          queues = replicate groups no_queue;
          spans = replicate groups no_spans;
          ranks = replicate groups None;
          len = 0;
        }) }
    {
        let mut slots = Vec::new(alloc);
        slots.reserve(4096)?;
        Ok(LaneUnits {
            bucket,
            queues: empty_queues(alloc, groups)?,
            stats: Vec::from_elem(alloc, Stats::new(), groups as usize)?,
            ranks: Ranks::new(alloc, groups)?,
            len: 0,
            slots,
        })
    }

    /// How many entries the units have together, at most 4096.
    pub fn len(&self) -> u32
        ensures len { result ≡ self.now.len }
        ensures most { result ≤ 4096 }
        ensures follows { (arena : Map Stored) (s : Flat) → Follows arena self.now s → result ≡ length (lane_entries s (lane self.now.bucket false)) }
    {
        self.len
    }

    /// How many entries the unit of a group has.
    pub fn unit_len(&self, group: u8) -> u32
        requires group { group < groups self.now }
        ensures len { result ≡ (queue_at self.now group).count }
        ensures follows { (arena : Map Stored) (s : Flat) → Follows arena self.now s → result ≡ length (clutch_entries s (unit_of self.now group)) }
    {
        self.queues[group as usize].len()
    }

    /// The greatest priority of a unit, and None exactly where all are empty.
    pub fn top(&self) -> Option<u8>
        ensures top { (arena : Map Stored) (s : Flat) → Follows arena self.now s → WellFormed (groups self.now) s
            → IfSome result (λ top. (k : Clutch) → IsFirstClutch s (lane self.now.bucket false) k → clutch_priority s k ≡ top) }
        ensures none { (arena : Map Stored) (s : Flat) → Follows arena self.now s → WellFormed (groups self.now) s
            → IsNone result ↔ (has_entries s (lane self.now.bucket false) ≡ false) }
    {
        queue_laws();
        let group = self.ranks.first()?;
        let key = self.ranks.get(group)?;
        Some(key.pri)
    }

    /// The slot of the first entry of the first unit, and None exactly where all are empty. Nothing is compared.
    pub fn best(&self, arena: &Arena<Item>) -> Option<u32>
        requires stands { LaneStands arena.now self.now }
        ensures held { IfSome result (λ slot. HasLaneSlot arena.now self.now slot) }
        ensures best { (s : Flat) → Follows arena.now self.now s → WellFormed (groups self.now) s → IfSome result (λ slot. IsBest arena.now self.now s slot) }
        ensures none { (s : Flat) → Follows arena.now self.now s → WellFormed (groups self.now) s
            → IsNone result ↔ (has_entries s (lane self.now.bucket false) ≡ false) }
    {
        queue_laws();
        order_laws();
        let group = self.ranks.first()?;
        self.queues[group as usize].first()
    }

    // The priority of a group's unit, and None where it is empty.
    fn unit_top(&self, arena: &Arena<Item>, group: u8) -> Option<u8>
        requires units { UnitsStand arena.now self.now }
        requires group { group < groups self.now }
        ensures { result ≡ top_at arena.now self.now group }
    {
        let slot = self.queues[group as usize].first()?;
        let stats = self.stats[group as usize];
        Some(arena.get(slot).pri + stats.score(self.bucket))
    }

    // How many groups have a unit.
    fn groups(&self) -> u8
        ensures groups { result ≡ groups self.now }
        ensures most { result ≤ MOST_GROUPS }
    {
        self.queues.len() as u8
    }

    // Renews the keys of all units, in order of groups, after their entries were priced anew.
    fn renew_all<L: Ledger>(&mut self, arena: &Arena<Item>, turns: &mut u64, steps: &mut Steps<L>)
        requires units { UnitsStand arena.now self.old }
        requires turn { turns.old < 2 ^ 63 - 64 }
        ensures same { self.new ≡ record self.old { ranks = self.new.ranks } }
        ensures stands { LaneStands arena.now self.new }
        ensures follows { (s p : Flat) → KeysAreOf arena.now self.old s p → turns.old ≡ p.next_turn
            → Follows arena.now self.new (with_turns_of (groups self.old) s p self.old.bucket) × (turns.new ≡ (with_turns_of (groups self.old) s p self.old.bucket).next_turn) }
        ensures turn { turns.old ≤ turns.new }
        ensures turn_most { turns.new ≤ turns.old + 64 }
        ensures ticks { steps.old ≤ steps.new }
    {
        queue_laws();
        for group in 0..self.groups() {
            self.renew(arena, group, false, turns, steps);
        }
    }

    // Renews the key of a group's unit, whose entries changed: the unit takes the next turn where it was picked from, was empty,
    // or has another priority, and it loses its key where it is empty.
    fn renew<L: Ledger>(
        &mut self,
        arena: &Arena<Item>,
        group: u8,
        picked: bool,
        turns: &mut u64,
        steps: &mut Steps<L>,
    )
        requires units { UnitsStand arena.now self.old }
        requires group { group < groups self.old }
        requires turn { turns.old < 2 ^ 63 }
        ensures renewed { self.new ≡ with_renewed arena.now picked turns.old group self.old }
        ensures turn { turns.new ≡ renewed_turn picked turns.old (rank_at self.old group) (top_at arena.now self.old group) }
        ensures ticks { steps.old ≤ steps.new }
    {
        match self.unit_top(arena, group) {
            None => self.ranks.clear(group, steps),
            Some(pri) => {
                if picked || !has_pri(self.ranks.get(group), pri) {
                    let turn = *turns;
                    *turns += 1;
                    self.ranks.set(group, UnitKey { pri, turn }, steps);
                }
            }
        }
    }
}

// What queues keep, as their laws say it.
fn queue_laws()
    ensures empty { StandsWhenEmpty 0 key_of_item key_precedes }
    ensures held { HeldAreLive 0 key_of_item key_precedes }
    ensures first { FirstIsLeast 0 key_of_item key_precedes }
    ensures pushed { PushedStaysApart }
    ensures removed { RemovedStaysApart }
    ensures gone { RemovedIsLacked }
    ensures settled { SettledStaysApart }
{
    heaps::stands_when_empty::<Item, 0>();
    heaps::held_are_live::<Item, 0>();
    heaps::first_is_least::<Item, 0>();
    queues::pushed_stays_apart();
    queues::removed_stays_apart();
    queues::removed_is_lacked();
    queues::settled_stays_apart();
}

// What goes first in a lane, as the laws of queues say it.
fn order_laws()
    ensures chosen { FirstIsChosen }
    ensures stands { FirstStandsInClutch }
    ensures orders { PrecedesOrders }
{
    queues::first_is_chosen();
    policy::first_stands_in_clutch();
    policy::precedes_orders();
}

// Whether a key has this priority.
fn has_pri(rank: Option<UnitKey>, pri: u8) -> bool
    ensures { result ≡ is_pri rank pri }
{
    match rank {
        None => false,
        Some(key) => key.pri == pri,
    }
}

// So many queues with no slot.
fn empty_queues(alloc: Global, groups: u8) -> Result<Vec<ThreadQueue>, AllocError>
    ensures { IfOk result (λ made. made.items ≡ replicate groups no_queue) }
{
    let mut queues = Vec::new(alloc);
    for _group in 0..groups {
        queues.push(ThreadQueue::new())?;
    }
    Ok(queues)
}
