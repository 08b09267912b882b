//! Journals: lists of lines.

ghost use Rattle.std.specs.Prelude.{◌≡◌, ◌≤◌, ◌<◌, ◌+◌, ◌==◌, length, slice_get, IsOk, IsErr, OnOk, OnErr};
ghost use Rattle.flat_policy.specs.Runs.Journals.{IsJournal, empty_journal, journal_limit, pushed};

use sched_base::Entry;
use std::alloc::{AllocError, Global};
use std::marker::Model;

/// A line of a journal: what happened, and its mark. The mark of a look is the bucket index it was
/// made for, that of a sleep is its span in microseconds; the other lines have none.
#[derive(Clone, Copy, Debug, PartialEq, Eq)]
pub struct Line {
    pub entry: Entry,
    pub mark: Option<u32>,
}

/// The first number that length and free room together never reach.
const LIMIT: usize = 1 << 40;

/// A list of lines that grows at its end. Contracts see its lines and its free room: how many
/// lines it takes before it has to be given memory. Both together are below 2^40.
#[derive(Debug, Drop)]
pub struct Journal {
    lines: Vec<Line>,
}

impl Model for Journal {
    ghost use Rattle.std.specs.Prelude.{◌-◌, ◌<◌, vec_capacity, vec_len};
    ghost use Rattle.flat_policy.specs.Runs.Journals.{JournalParts, journal_limit};

    ghost Value = { JournalParts };

    ghost view = { λ j. record { lines = j.lines.items; free = vec_capacity j.lines - vec_len j.lines } };

    ghost invariant = { λ j. vec_capacity j.lines < journal_limit };
}

impl Journal {
    /// An empty journal without free room. It takes no memory before `reserve`.
    pub fn new(alloc: Global) -> Journal
        ensures { result ≡ empty_journal }
    {
        Journal {
            lines: Vec::new(alloc),
        }
    }

    /// Makes the free room at least `n`; it never shrinks. Where length and `n` together reach
    /// 2^40 that is want of memory. An error changes nothing.
    pub fn reserve(&mut self, n: u64) -> Result<(), AllocError>
        ensures lines { self.new.lines ≡ self.old.lines }
        ensures room { OnOk result (n ≤ self.new.free) }
        ensures kept { self.old.free ≤ self.new.free }
        ensures free { n ≤ self.old.free → IsOk result }
        ensures past { journal_limit ≤ length self.old.lines + n → IsErr result }
        ensures err { OnErr result (self.new ≡ self.old) }
    {
        let len = self.lines.len();
        if n <= (self.lines.capacity() - len) as u64 {
            return Ok(());
        }
        if n >= (LIMIT - len) as u64 {
            return Err(AllocError);
        }
        // Doubling keeps the copying of many small reserves linear.
        let least = n as usize;
        let doubled = least.max(len).min(LIMIT - 1 - len);
        match self.lines.reserve_exact(doubled) {
            Ok(()) => Ok(()),
            Err(_) => self.lines.reserve_exact(least),
        }
    }

    /// Adds a line at the end, in one place of the free room.
    pub fn push(&mut self, l: Line)
        requires { 1 ≤ self.old.free }
        ensures { self.new ≡ pushed l self.old }
    {
        self.lines.push_reserved(l);
    }

    /// The number of lines.
    pub fn len(&self) -> u64
        ensures len { result ≡ length self.now.lines }
        ensures limit { IsJournal self.now }
    {
        self.lines.len() as u64
    }

    /// Whether there are no lines.
    pub fn is_empty(&self) -> bool
        ensures { result ≡ (length self.now.lines == 0) }
    {
        self.lines.is_empty()
    }

    /// The line at place `i`, counted from 0.
    pub fn line(&self, i: u64) -> Line
        requires { i < length self.now.lines }
        ensures { slice_get self.now.lines i ≡ Some result }
    {
        self.lines[i as usize]
    }
}
