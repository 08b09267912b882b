//! How many entries each unit has, and rows priced by that.

ghost use Rattle.std.specs.Prelude.{◌≡◌, ◌<◌, ◌+◌, ◌^◌, Some, count_by, filter, if◌then◌else◌, length, map, slice_get, ℕ};
ghost use Rattle.sched_base.specs.declared.Facts.{Facts};
ghost use Rattle.plain_cluster.specs.Entries.{Slotted, entries_of};
ghost use Rattle.plain_cluster.specs.Repricing.{CanPrice, HaveGroups, count_of, in_unit, is_changed, priced};

use crate::row::Row;
use bucket_tables::Table;
use sched_base::limits::{BUCKET_COUNT, MOST_GROUPS};
use sched_base::{Bucket, Facts};
use timeshare_decay::{decay, priority};

/// How many entries each clutch bucket has, by group and bucket index, and each bound lane, by
/// bucket index.
#[derive(Clone, Copy)]
pub struct Counts {
    pub unbound: Table<MOST_GROUPS, BUCKET_COUNT>,
    pub bound: [u64; BUCKET_COUNT],
}

impl Counts {
    /// The counts of these entries, in one pass.
    pub fn of_rows(rows: &[Row]) -> Counts
        requires groups { HaveGroups (entries_of rows.now) }
        requires few { length rows.now < 2 ^ 32 }
        ensures { (t : Facts) → count_of result t ≡ length (filter (in_unit t) (entries_of rows.now)) }
    {
        let mut counts = Counts::none();
        for row in rows {
            counts.add(row);
        }
        counts
    }

    /// No entries.
    fn none() -> Counts
        ensures { (t : Facts) → count_of result t ≡ 0 }
    {
        Counts {
            unbound: Table::filled(0),
            bound: [0; BUCKET_COUNT],
        }
    }

    /// One more entry.
    fn add(&mut self, row: &Row)
        requires group { row.now.entry.facts.group < MOST_GROUPS }
        requires few { count_of self.old row.now.entry.facts < 2 ^ 32 }
        ensures { (t : Facts) → count_of self.new t ≡ count_of self.old t + (if in_unit t row.now.entry then 1 else 0) }
    {
        let facts = row.facts();
        let count = self.of(&facts);
        let column = facts.bucket.index() as usize;
        self.unbound.keeps_shape();
        if facts.bound.is_some() {
            self.bound[column] = count + 1;
        } else {
            self.unbound.set(facts.group as usize, column, count + 1);
        }
    }

    /// How many entries the unit of a thread has.
    fn of(&self, facts: &Facts) -> u64
        requires { facts.now.group < MOST_GROUPS }
        ensures { result ≡ count_of self.now facts.now }
    {
        let column = facts.bucket.index() as usize;
        if facts.bound.is_some() {
            self.bound[column]
        } else {
            self.unbound.get(facts.group as usize, column)
        }
    }
}

/// Decays a row to a moment and prices it, and tells whether its priority changed. One of the user
/// interface stays.
fn reprice_row(row: &mut Row, counts: &Counts, now: u64) -> bool
    requires { CanPrice counts.now row.old }
    ensures row { row.new ≡ priced counts.now now row.old }
    ensures changed { result ≡ is_changed counts.now now row.old }
{
    let facts = row.facts();
    match facts.bucket {
        Bucket::Ui => false,
        Bucket::Fg | Bucket::Ini | Bucket::Df | Bucket::Ut | Bucket::Bg => {
            let usage = decay(facts.usage, facts.seen, now);
            let count = counts.of(&facts) as u32;
            let pri = priority(facts.base, facts.bucket, usage, count);
            let before = row.pri();
            row.reprice(usage, now, pri);
            pri != before
        }
    }
}

/// Decays all rows to a moment and prices them, and tells how many priorities changed.
pub fn reprice_rows(rows: &mut [Row], counts: &Counts, now: u64) -> u32
    requires few { length rows.old < 2 ^ 32 }
    requires each { (place : ℕ) (r : Slotted) → slice_get rows.old place ≡ Some r → CanPrice counts.now r }
    ensures rows { rows.new ≡ map (priced counts.now now) rows.old }
    ensures changed { result ≡ count_by (is_changed counts.now now) rows.old }
{
    let mut changed = 0;
    for row in rows.iter_mut() {
        if reprice_row(row, counts, now) {
            changed += 1;
        }
    }
    changed
}
