ghost use Rattle.std.specs.Prelude.{◌≡◌, ◌≢◌, ℕ, ◌+◌, ◌<◌, ◌≤◌, [], Some, None, IfOk, OnOk, OnErr, IfSome, IfNone, IsTrue, ◌↔◌, ◌^◌, vec_capacity, vec_len, slice_index_or};

use slab::Slab;
use std::alloc::{AllocError, Global};
use std::marker::Model;
use std::mem;

/// The slots that a slot leads to in one link set.
#[derive(Clone, Copy, PartialEq, Eq, Debug, Default)]
pub struct Links {
    pub child: Option<u32>,
    pub next: Option<u32>,
    pub prev: Option<u32>,
}

// The links of a slot, which the slab has under the slot's number.
#[derive(Clone, Copy)]
struct Cell {
    first: Links,
    second: Links,
}

/// Values, each under a slot that the arena picks, with two sets of links among the slots.
///
/// A slot keeps its value and its links until it is removed, and only then is it given out again.
pub struct Arena<V> {
    cells: Slab<Cell>,
    // The value at each slot, and none at a slot that is free.
    values: Vec<Option<V>>,
    // The slots that are free. It has room for every slot of the slab.
    free: Vec<u32>,
}

impl<V> Model for Arena<V> {
    ghost use Rattle.std.specs.Prelude.{vec_len, vec_capacity};
    ghost use Rattle.link_arena.specs.Arena.{Arena as Map, arena_code};

    ghost Value = { Map V };

    ghost coded = { arena_code V.code };

    ghost use Rattle.link_arena.specs.Sound.{nodes_of, IsSound};

    ghost view = { λ a. record { nodes = nodes_of a.cells.slots a.values.items; spare = vec_len a.free } };

    ghost invariant = { λ a. IsSound a.cells a.values.items a.free.items (vec_capacity a.free) };
}

impl<V: Drop> Drop for Arena<V> {
    fn drop(self) {
        let Arena {
            cells: _,
            values: _,
            free: _,
        } = self;
    }
}

impl Links {
    /// Links that lead nowhere.
    pub const NONE: Links = Links {
        child: None,
        next: None,
        prev: None,
    };
}

impl Cell {
    ghost use Rattle.link_arena.specs.Sound.{cell_links, cell_with_links};

    const EMPTY: Cell = Cell {
        first: Links::NONE,
        second: Links::NONE,
    };

    fn set_links(&mut self, k: usize, l: Links)
        ensures { self.new ≡ cell_with_links k l self.old }
    {
        if k == 0 {
            self.first = l;
        } else {
            self.second = l;
        }
    }

    fn set_child(&mut self, k: usize, child: Option<u32>)
        ensures { self.new ≡ cell_with_links k (record (cell_links k self.old) { child = child }) self.old }
    {
        if k == 0 {
            self.first.child = child;
        } else {
            self.second.child = child;
        }
    }

    fn set_beside(&mut self, k: usize, next: Option<u32>, prev: Option<u32>)
        ensures { self.new ≡ cell_with_links k (record (cell_links k self.old) { next = next; prev = prev }) self.old }
    {
        if k == 0 {
            self.first.next = next;
            self.first.prev = prev;
        } else {
            self.second.next = next;
            self.second.prev = prev;
        }
    }

    fn set_prev(&mut self, k: usize, prev: Option<u32>)
        ensures { self.new ≡ cell_with_links k (record (cell_links k self.old) { prev = prev }) self.old }
    {
        if k == 0 {
            self.first.prev = prev;
        } else {
            self.second.prev = prev;
        }
    }
}

impl<V> Arena<V> {
    ghost use Rattle.link_arena.specs.Arena.{value_at, links_at, unlinked, IsLive, SameMap, Inserts, Removes, Relinks, Revalues, with_value, live_count};
    ghost use Rattle.link_arena.specs.Lends.{LendsValue};
    ghost use Rattle.std.specs.Borrow.{sem};

    /// An arena with no value and no spare slot.
    pub fn new(alloc: Global) -> Result<Arena<V>, AllocError>
        ensures { IfOk result (λ arena. arena ≡ record { nodes = []; spare = 0 }) }
    {
        Ok(Arena {
            cells: Slab::new(alloc),
            values: Vec::new(alloc),
            free: Vec::new(alloc),
        })
    }

    /// Ends an arena whose values were all taken out. An arena of values that may be dropped needs no such call.
    pub fn destroy_empty(self)
        requires { (slot : ℕ) → value_at self slot ≡ None }
    {
        let Arena {
            cells: _,
            mut values,
            free: _,
        } = self;
        while let Some(value) = values.pop() {
            match value {
                None => {}
                Some(_) => unreachable!(),
            }
        }
        values.destroy_empty();
    }

    /// Makes room for one value more at least, which is the only way to take memory. An error changes nothing, and comes
    /// also where the slot's number would be past a `u32`.
    pub fn reserve(&mut self) -> Result<(), AllocError>
        ensures spare { OnOk result (self.old.spare < self.new.spare) }
        ensures map { OnOk result (SameMap self.old self.new) }
        ensures len { OnOk result (live_count self.new ≡ live_count self.old) }
        ensures err { OnErr result (self.new ≡ self.old) }
    {
        let key = self.cells.vacant_key();
        let Ok(number) = u32::try_from(key) else {
            return Err(AllocError);
        };
        let Some(cells) = self.cells.len().checked_add(1) else {
            return Err(AllocError);
        };
        self.free.reserve(cells - self.free.len())?;
        self.values
            .reserve((key + 1).saturating_sub(self.values.len()))?;
        self.cells.reserve(1)?;
        self.cells.insert_reserved(Cell::EMPTY);
        lengthen(&mut self.values, key + 1);
        self.free.push_reserved(number);
        Ok(())
    }

    /// Stores `v` in a slot that was free, with no links, and returns the slot. The arena has one spare slot less.
    pub fn insert_reserved(&mut self, v: V) -> u32
        requires { 0 < self.old.spare }
        ensures inserts { Inserts self.old self.new result v }
        ensures spare { self.new.spare + 1 ≡ self.old.spare }
        ensures len { live_count self.new ≡ live_count self.old + 1 }
    {
        let slot = self.free.pop().unwrap();
        self.cells[slot as usize] = Cell::EMPTY;
        match mem::replace(&mut self.values[slot as usize], Some(v)) {
            None => {}
            Some(_) => unreachable!(),
        }
        slot
    }

    /// Takes the value out of a slot whose links lead nowhere. The arena has one spare slot more.
    pub fn remove(&mut self, slot: u32) -> V
        requires live { IsLive self.old slot }
        requires first { links_at self.old 0 slot ≡ unlinked }
        requires second { links_at self.old 1 slot ≡ unlinked }
        ensures value { value_at self.old slot ≡ Some result }
        ensures removes { Removes self.old self.new slot }
        ensures spare { self.new.spare ≡ self.old.spare + 1 }
        ensures len { live_count self.new + 1 ≡ live_count self.old }
    {
        let value = self.values[slot as usize].take().unwrap();
        self.free.push_reserved(slot);
        value
    }

    /// The value in a slot.
    pub fn get(&self, slot: u32) -> &V
        requires { IsLive self.now slot }
        ensures { value_at self.now slot ≡ Some result.now }
    {
        match &self.values[slot as usize] {
            Some(value) => value,
            None => unreachable!(),
        }
    }

    /// The value in a slot, for writing. Links stay, and so does the spare room.
    pub fn get_mut(&mut self, slot: u32) -> &mut V
        requires { IsLive self.old slot }
        ensures* writes_back { sem 𝓛 (LendsValue V.row self.entry slot result) }
        ensures value { value_at self.old slot ≡ Some result.now }
        ensures revalues { (v : V) → Revalues self.old (with_value self.old slot v) slot v }
        ensures len { (v : V) → live_count (with_value self.old slot v) ≡ live_count self.old }
    {
        self.values[slot as usize].as_mut().unwrap()
    }

    /// Puts `v` in the place of the value in a slot, which comes back. Links stay.
    pub fn replace(&mut self, slot: u32, v: V) -> V
        requires { IsLive self.old slot }
        ensures value { value_at self.old slot ≡ Some result }
        ensures revalues { Revalues self.old self.new slot v }
        ensures spare { self.new.spare ≡ self.old.spare }
        ensures len { live_count self.new ≡ live_count self.old }
    {
        mem::replace(&mut self.values[slot as usize], Some(v)).unwrap()
    }

    /// The links of set `k`, which is 0 or 1, at a slot.
    pub fn links(&self, k: usize, slot: u32) -> Links
        requires live { IsLive self.now slot }
        requires set { k < 2 }
        ensures { result ≡ links_at self.now k slot }
    {
        let cell = &self.cells[slot as usize];
        if k == 0 { cell.first } else { cell.second }
    }

    /// Writes the links of set `k`, which is 0 or 1, at a slot. Values and the other set stay.
    pub fn set_links(&mut self, k: usize, slot: u32, l: Links)
        requires live { IsLive self.old slot }
        requires set { k < 2 }
        ensures relinks { Relinks self.old self.new k slot l }
        ensures spare { self.new.spare ≡ self.old.spare }
        ensures len { live_count self.new ≡ live_count self.old }
    {
        let cell = &mut self.cells[slot as usize];
        cell.set_links(k, l);
    }

    /// Writes the child of set `k`, which is 0 or 1, at a slot. All other links stay, and so do values.
    pub fn set_child(&mut self, k: usize, slot: u32, child: Option<u32>)
        requires live { IsLive self.old slot }
        requires set { k < 2 }
        ensures relinks { Relinks self.old self.new k slot (record (links_at self.old k slot) { child = child }) }
        ensures spare { self.new.spare ≡ self.old.spare }
        ensures len { live_count self.new ≡ live_count self.old }
    {
        let cell = &mut self.cells[slot as usize];
        cell.set_child(k, child);
    }

    /// Writes the next slot and the one before of set `k`, which is 0 or 1, at a slot. All other links stay, and so do values.
    pub fn set_beside(&mut self, k: usize, slot: u32, next: Option<u32>, prev: Option<u32>)
        requires live { IsLive self.old slot }
        requires set { k < 2 }
        ensures relinks { Relinks self.old self.new k slot (record (links_at self.old k slot) { next = next; prev = prev }) }
        ensures spare { self.new.spare ≡ self.old.spare }
        ensures len { live_count self.new ≡ live_count self.old }
    {
        let cell = &mut self.cells[slot as usize];
        cell.set_beside(k, next, prev);
    }

    /// Writes the slot before of set `k`, which is 0 or 1, at a slot. All other links stay, and so do values.
    pub fn set_prev(&mut self, k: usize, slot: u32, prev: Option<u32>)
        requires live { IsLive self.old slot }
        requires set { k < 2 }
        ensures relinks { Relinks self.old self.new k slot (record (links_at self.old k slot) { prev = prev }) }
        ensures spare { self.new.spare ≡ self.old.spare }
        ensures len { live_count self.new ≡ live_count self.old }
    {
        let cell = &mut self.cells[slot as usize];
        cell.set_prev(k, prev);
    }

    /// The least slot from `from` on that holds a value, if there is one.
    pub fn next_live(&self, from: u32) -> Option<u32>
        ensures live { IfSome result (λ slot. IsLive self.now slot) }
        ensures from { IfSome result (λ slot. from ≤ slot) }
        ensures least { IfSome result (λ slot. (other : ℕ) → from ≤ other → other < slot → value_at self.now other ≡ None) }
        ensures none { IfNone result ((other : ℕ) → from ≤ other → value_at self.now other ≡ None) }
    {
        for key in from as usize..self.values.len() {
            if self.has_value(key) {
                return Some(key as u32);
            }
        }
        None
    }

    /// Whether a slot holds a value. No other slot is looked at.
    pub fn is_live(&self, slot: u32) -> bool
        ensures { IsTrue result ↔ IsLive self.now slot }
    {
        self.has_value(slot as usize)
    }

    /// How many slots hold a value.
    pub fn len(&self) -> usize
        ensures { result ≡ live_count self.now }
    {
        self.cells.len() - self.free.len()
    }

    /// How many values can be stored before memory is taken.
    pub fn spare(&self) -> usize
        ensures { result ≡ self.now.spare }
    {
        self.free.len()
    }

    fn has_value(&self, key: usize) -> bool
        ensures live { IsTrue result ↔ IsLive self.now key }
        ensures small { IsTrue result → key < 2 ^ 32 }
    {
        if self.values.len() <= key {
            return false;
        }
        self.values[key].is_some()
    }
}

// Makes a list of values at least so long, by places with no value.
fn lengthen<V>(values: &mut Vec<Option<V>>, len: usize)
    requires { len ≤ vec_capacity values.old }
    ensures longer { vec_len values.old ≤ vec_len values.new }
    ensures long { len ≤ vec_len values.new }
    ensures same { (k : ℕ) → slice_index_or values.new.items k None ≡ slice_index_or values.old.items k None }
{
    for place in values.len()..len {
        values.push_reserved(None);
    }
}
