//! Where each name stands.

ghost use Rattle.std.specs.Prelude.{◌≡◌, ◌==◌, None, Some, IsSome, OnOk, OnErr, ◌≤◌, if◌then◌else◌, length, ℕ};
ghost use Rattle.trace_machine.specs.Yards.{standing_of};

use sched_base::Ticket;
use std::alloc::{AllocError, Global};
use std::collections::BTreeMap;
use std::marker::Model;

/// Where a thread stands: in the queue of a cluster, as its ticket says, in the hand of an actor, in
/// a slot of the yard, or among the ended.
#[derive(Clone, Copy, Debug, PartialEq, Eq)]
pub enum Standing {
    Queued(Ticket),
    Held(u8),
    Blocked(u32),
    Ended,
}

/// Where each name that was ever made stands. Names that are made one after the other are found at
/// once, and others in logarithmic time.
#[derive(Drop)]
pub struct Names {
    // By number. At most every second place is empty.
    near: Vec<Option<Standing>>,
    // The names that `near` doesn't have.
    far: BTreeMap<u32, Standing>,
}

impl Model for Names {
    ghost use Rattle.trace_machine.specs.Yards.{NamesView};

    ghost Value = { NamesView };

    ghost view = { λ n. record { near = n.near.items; far = n.far.entries } };
}

impl Names {
    /// No name.
    pub fn new(alloc: Global) -> Names
        ensures { (name : ℕ) → standing_of result name ≡ None }
    {
        Names {
            near: Vec::new(alloc),
            far: BTreeMap::new(alloc),
        }
    }

    /// Where a name stands; `None` where it was never made.
    pub fn get(&self, name: u32) -> Option<Standing>
        ensures { result ≡ standing_of self.now name }
    {
        let at = name as usize;
        if at < self.near.len() {
            let standing = self.near[at];
            if standing.is_some() {
                return standing;
            }
        }
        self.far.get(&name).copied()
    }

    /// A name that was made stands elsewhere. The other names stay.
    pub fn set(&mut self, name: u32, standing: Standing)
        requires { IsSome (standing_of self.old name) }
        ensures { (other : ℕ) → standing_of self.new other ≡ (if other == name then Some standing else standing_of self.old other) }
    {
        let at = name as usize;
        if at < self.near.len() && self.near[at].is_some() {
            self.near[at] = Some(standing);
        } else if let Some(place) = self.far.get_mut(&name) {
            *place = standing;
        }
    }

    /// A new name stands somewhere. An error changes nothing.
    pub fn add(&mut self, name: u32, standing: Standing) -> Result<(), AllocError>
        ensures added { OnOk result ((other : ℕ) → standing_of self.new other ≡ (if other == name then Some standing else standing_of self.old other)) }
        ensures err { OnErr result (self.new ≡ self.old) }
    {
        let at = name as usize;
        let len = self.near.len();
        if at < len {
            self.near[at] = Some(standing);
            return Ok(());
        }
        if at - len > 1 {
            return self.add_far(name, standing);
        }
        self.near.reserve(2)?;
        if at != len {
            self.near.push_reserved(None);
        }
        self.near.push_reserved(Some(standing));
        Ok(())
    }

    /// A name stands somewhere that no place of `near` is for.
    fn add_far(&mut self, name: u32, standing: Standing) -> Result<(), AllocError>
        requires { length self.old.near ≤ name }
        ensures added { OnOk result ((other : ℕ) → standing_of self.new other ≡ (if other == name then Some standing else standing_of self.old other)) }
        ensures err { OnErr result (self.new ≡ self.old) }
    {
        match self.far.insert(name, standing) {
            Ok(_) => Ok(()),
            Err(_) => Err(AllocError),
        }
    }
}
