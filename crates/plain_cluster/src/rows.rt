//! The rows of a cluster, and the slots that they lie in.

ghost use Rattle.std.specs.List.{remove};
ghost use Rattle.std.specs.Prelude.{◌≡◌, ◌≤◌, ◌<◌, ◌+◌, ◌-◌, ◌++◌, ◌∷◌, [], Contains, OnErr, OnOk, Some, count_by, length, map, slice_get, ℕ};
ghost use Rattle.flat_policy.specs.Policy.Queue.{Queued, order_number};
ghost use Rattle.plain_cluster.specs.Entries.{Slotted, entry_at, slots_of};
ghost use Rattle.plain_cluster.specs.Repricing.{CanPrice, is_changed, priced};

use crate::counts::{Counts, reprice_rows};
use crate::row::Row;
use sched_base::Thread;
use sched_base::limits::MOST_BASE;
use std::alloc::{AllocError, Global};
use std::marker::Model;

/// The rows in the order of arrival. `free` has the slots that no row lies in; both lists have room
/// for all slots, so that only `reserve` takes memory.
pub struct Rows {
    rows: Vec<Row>,
    free: Vec<u32>,
}

impl Model for Rows {
    ghost use Rattle.plain_cluster.specs.Entries.{RowList};

    ghost Value = { RowList };

    ghost use Rattle.std.specs.Prelude.{length};
    ghost use Rattle.plain_cluster.specs.RowsParts.{IsRows};

    ghost view = { λ r. record { rows = r.rows.items; spare = length r.free.items } };

    ghost invariant = { IsRows };
}

impl Rows {
    /// No rows, and no room.
    pub fn new(alloc: Global) -> Rows
        ensures { result ≡ record { rows = []; spare = 0 } }
    {
        Rows {
            rows: Vec::new(alloc),
            free: Vec::new(alloc),
        }
    }

    /// The rows in the order of arrival.
    pub fn as_slice(&self) -> &[Row]
        ensures { result.now ≡ self.now.rows }
    {
        self.rows.as_slice()
    }

    /// How many rows there are.
    pub fn len(&self) -> u32
        ensures { result ≡ length self.now.rows }
    {
        self.rows.len() as u32
    }

    /// How many more rows there is room for.
    pub fn spare(&self) -> u32
        ensures { result ≡ self.now.spare }
    {
        self.free.len() as u32
    }

    /// Makes room for one more row. An error changes nothing.
    pub fn reserve(&mut self) -> Result<(), AllocError>
        ensures rows { self.new.rows ≡ self.old.rows }
        ensures room { OnOk result (self.new.spare ≡ self.old.spare + 1) }
        ensures err { OnErr result (self.new ≡ self.old) }
    {
        let slots = self.rows.len() + self.free.len();
        if slots >= u32::MAX as usize {
            return Err(AllocError);
        }
        self.rows.reserve(self.free.len() + 1)?;
        self.free.reserve(self.rows.len() + 1)?;
        self.free.push_reserved(slots as u32);
        Ok(())
    }

    /// Adds a row of a thread that has no pending spans, and tells its slot.
    pub fn push(&mut self, thread: Thread, pri: u8, arrival: u64, head: bool) -> u32
        requires room { 1 ≤ self.old.spare }
        requires pri { pri ≤ MOST_BASE }
        requires ran { thread.pending_ran ≡ 0 }
        requires blocked { thread.pending_blocked ≡ 0 }
        ensures rows { self.new.rows ≡ self.old.rows ++ record {
          entry = record {
            facts = thread;
            pri = pri;
            arrival = arrival;
            order = order_number head arrival;
          };
          slot = result;
        } ∷ [] }
        ensures spare { self.new.spare + 1 ≡ self.old.spare }
        ensures slot { ¬ Contains (slots_of self.old.rows) result }
    {
        let slot = self.free.pop().unwrap();
        self.rows
            .push_reserved(Row::new(thread, pri, arrival, head, slot));
        slot
    }

    /// Takes the row at a place out, and frees its slot.
    pub fn remove(&mut self, place: usize) -> Thread
        requires { place < length self.old.rows }
        ensures thread { (e : Queued) → entry_at self.old.rows (Some place) ≡ Some e → result ≡ e.facts }
        ensures rows { self.new.rows ≡ remove self.old.rows place }
        ensures spare { self.new.spare ≡ self.old.spare + 1 }
    {
        let row = self.rows.remove(place);
        self.free.push_reserved(row.slot());
        row.into_thread()
    }

    /// Decays all rows to a moment and prices them by counts, and tells how many priorities changed.
    pub fn reprice(&mut self, counts: &Counts, now: u64) -> u32
        requires { (place : ℕ) (r : Slotted) → slice_get self.old.rows place ≡ Some r → CanPrice counts.now r }
        ensures rows { self.new.rows ≡ map (priced counts.now now) self.old.rows }
        ensures spare { self.new.spare ≡ self.old.spare }
        ensures changed { result ≡ count_by (is_changed counts.now now) self.old.rows }
    {
        reprice_rows(&mut self.rows, counts, now)
    }

    /// Ends rows of which there are none.
    pub fn end(self)
        requires { length self.rows ≡ 0 }
    {
        let Rows { rows, free: _ } = self;
        rows.destroy_empty();
    }
}
