//! The calls on the heaps for who counts no comparisons.

ghost use Rattle.std.specs.Prelude.{◌≡◌, ◌<◌, ◌^◌};
ghost use Rattle.cluster_queue.specs.Moves.{CanEnter, CanLeave, Enters, Leaves};
ghost use Rattle.cluster_queue.specs.Refreshing.{CanRefresh, RefreshesHeaps};

use super::Heaps;
use link_arena::Arena;
use pairing_heap::Steps;
use std::marker::Brand;
use std::sync::ledger::{Blank, Ledger};
use thread_queue::Item;

impl Heaps {
    /// As `enter`, with a counter that nobody reads.
    pub fn enter_uncounted(
        &mut self,
        arena: &mut Arena<Item>,
        slot: u32,
        ran: u32,
        blocked: u32,
        turns: &mut u64,
    )
        requires can { CanEnter arena.old self.old slot }
        requires turn { turns.old < 2 ^ 63 }
        ensures { Enters arena.old arena.new self.old self.new slot ran blocked turns.old turns.new }
    {
        self.enter_by::<Brand>(arena, slot, ran, blocked, turns, Blank::new(1));
    }

    fn enter_by<L: Ledger>(
        &mut self,
        arena: &mut Arena<Item>,
        slot: u32,
        ran: u32,
        blocked: u32,
        turns: &mut u64,
        blank: Blank,
    )
        requires name { blank.name ≡ L.name }
        requires parts { blank.parts ≡ L.parts }
        requires some { 0 < blank.parts }
        requires can { CanEnter arena.old self.old slot }
        requires turn { turns.old < 2 ^ 63 }
        ensures { Enters arena.old arena.new self.old self.new slot ran blocked turns.old turns.new }
    {
        let mut steps = Steps::<L>::new(blank);
        self.enter(arena, slot, ran, blocked, turns, &mut steps);
    }

    /// As `remove`, with a counter that nobody reads.
    pub fn remove_uncounted(
        &mut self,
        arena: &mut Arena<Item>,
        slot: u32,
        picked: bool,
        turns: &mut u64,
    )
        requires can { CanLeave arena.old self.old slot }
        requires turn { turns.old < 2 ^ 63 }
        ensures { Leaves arena.old arena.new self.old self.new slot picked turns.old turns.new }
    {
        self.remove_by::<Brand>(arena, slot, picked, turns, Blank::new(1));
    }

    fn remove_by<L: Ledger>(
        &mut self,
        arena: &mut Arena<Item>,
        slot: u32,
        picked: bool,
        turns: &mut u64,
        blank: Blank,
    )
        requires name { blank.name ≡ L.name }
        requires parts { blank.parts ≡ L.parts }
        requires some { 0 < blank.parts }
        requires can { CanLeave arena.old self.old slot }
        requires turn { turns.old < 2 ^ 63 }
        ensures { Leaves arena.old arena.new self.old self.new slot picked turns.old turns.new }
    {
        let mut steps = Steps::<L>::new(blank);
        self.remove(arena, slot, picked, turns, &mut steps);
    }

    /// As `refresh`, with a counter that nobody reads.
    pub fn refresh_uncounted(&mut self, arena: &mut Arena<Item>, now: u64, turns: &mut u64) -> u32
        requires can { CanRefresh arena.old self.old }
        requires turn { turns.old < 2 ^ 62 }
        ensures { RefreshesHeaps arena.old arena.new self.old self.new now turns.old turns.new result }
    {
        self.refresh_by::<Brand>(arena, now, turns, Blank::new(1))
    }

    fn refresh_by<L: Ledger>(
        &mut self,
        arena: &mut Arena<Item>,
        now: u64,
        turns: &mut u64,
        blank: Blank,
    ) -> u32
        requires name { blank.name ≡ L.name }
        requires parts { blank.parts ≡ L.parts }
        requires some { 0 < blank.parts }
        requires can { CanRefresh arena.old self.old }
        requires turn { turns.old < 2 ^ 62 }
        ensures { RefreshesHeaps arena.old arena.new self.old self.new now turns.old turns.new result }
    {
        let mut steps = Steps::<L>::new(blank);
        self.refresh(arena, now, turns, &mut steps)
    }
}
