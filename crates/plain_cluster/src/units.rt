//! The numbers of the clutch buckets: what each used and was blocked, and its turn.

ghost use Rattle.std.specs.Prelude.{◌≡◌, ◌≤◌, ◌<◌, ◌+◌, ◌*◌, ◌^◌, IfOk, None, Some, length, replicate, slice_index_or, slice_set};
ghost use Rattle.flat_policy.specs.Policy.Queue.{clutch_place, no_spans};
ghost use Rattle.flat_policy.specs.Policy.Usage.{with_spans};
ghost use Rattle.plain_cluster.specs.Entries.{clutch, score_at};

use interactivity::Stats;
use sched_base::Bucket;
use std::alloc::{AllocError, Global};
use std::marker::Model;

/// For each clutch bucket, at `group * 6 + bucket index`, what it used and was blocked, and its
/// turn; and the turn that is given out next.
#[derive(Drop)]
pub struct Units {
    stats: Vec<Stats>,
    turns: Vec<Option<u64>>,
    next_turn: u64,
}

impl Model for Units {
    ghost use Rattle.plain_cluster.specs.Entries.{UnitList};

    ghost Value = { UnitList };

    ghost use Rattle.std.specs.Prelude.{◌≡◌, length};

    ghost view = { λ u. record {
      spans = u.stats.items;
      turns = u.turns.items;
      next_turn = u.next_turn;
    } };

    ghost invariant = { λ u. length u.turns.items ≡ length u.stats.items };
}

/// Where the numbers of a clutch bucket stand.
fn place(group: u8, bucket: Bucket) -> usize
    ensures { result ≡ clutch_place (clutch group bucket) }
{
    group as usize * 6 + bucket.index() as usize
}

impl Units {
    /// The numbers for so many groups: nothing used, nothing blocked, and no turns.
    pub fn new(alloc: Global, groups: u8) -> Result<Units, AllocError>
        ensures { IfOk result (λ made. made ≡ record {
          spans = replicate (groups * 6) no_spans;
          turns = replicate (groups * 6) None;
          next_turn = 0;
        }) }
    {
        let places = groups as usize * 6;
        Ok(Units {
            stats: Vec::from_elem(alloc, Stats::new(), places)?,
            turns: Vec::from_elem(alloc, None, places)?,
            next_turn: 0,
        })
    }

    /// The score of a clutch bucket, at most 16.
    pub fn score(&self, group: u8, bucket: Bucket) -> u8
        requires { clutch_place (clutch group bucket) < length self.now.spans }
        ensures score { result ≡ score_at self.now.spans (clutch group bucket) }
        ensures most { result ≤ 16 }
    {
        let stats = self.stats[place(group, bucket)];
        stats.score(bucket)
    }

    /// The turn of a clutch bucket.
    pub fn turn(&self, group: u8, bucket: Bucket) -> Option<u64>
        requires { clutch_place (clutch group bucket) < length self.now.spans }
        ensures { result ≡ slice_index_or self.now.turns (clutch_place (clutch group bucket)) None }
    {
        self.turns[place(group, bucket)]
    }

    /// Adds a run span and a blocked span to a clutch bucket, in microseconds.
    pub fn add(&mut self, group: u8, bucket: Bucket, ran: u32, blocked: u32)
        requires { clutch_place (clutch group bucket) < length self.old.spans }
        ensures { self.new ≡ record self.old {
          spans = slice_set self.old.spans (clutch_place (clutch group bucket))
              (with_spans (slice_index_or self.old.spans (clutch_place (clutch group bucket)) no_spans) ran blocked);
        } }
    {
        let stats = &mut self.stats[place(group, bucket)];
        stats.add(ran, blocked);
    }

    /// A clutch bucket takes the next turn.
    pub fn take_turn(&mut self, group: u8, bucket: Bucket)
        requires place { clutch_place (clutch group bucket) < length self.old.spans }
        requires turn { self.old.next_turn < 2 ^ 63 }
        ensures { self.new ≡ record self.old {
          turns = slice_set self.old.turns (clutch_place (clutch group bucket)) (Some self.old.next_turn);
          next_turn = self.old.next_turn + 1;
        } }
    {
        self.turns[place(group, bucket)] = Some(self.next_turn);
        self.next_turn += 1;
    }

    /// A clutch bucket has no turn.
    pub fn lose_turn(&mut self, group: u8, bucket: Bucket)
        requires { clutch_place (clutch group bucket) < length self.old.spans }
        ensures { self.new ≡ record self.old {
          turns = slice_set self.old.turns (clutch_place (clutch group bucket)) None;
        } }
    {
        self.turns[place(group, bucket)] = None;
    }
}
