//! Sets of lanes, as bitmaps.

ghost use Rattle.std.specs.Option.{option_and_then};
ghost use Rattle.std.specs.Prelude.{◌≡◌, ◌≢◌, ◌-◌, ◌<◌, ◌^◌, ◌↔◌, IfSome, IsTrue, [], false, replicate, slice_get, slice_index_or, slice_set};
ghost use Rattle.flat_policy.specs.Policy.Queue.{timeshare_lanes};
ghost use Rattle.root_deadlines.specs.Lanes.{behind_first, filled_among, first_of, higher_than};
ghost use Rattle.root_deadlines.specs.Indices.{bound_index, index_of_lane};

use crate::indices::lane_index;
use bucket_tables::Lane;
use sched_base::Bucket;
use std::marker::Model;

/// Some of the ten timeshare lanes, as a bitmap. Contracts see, for each lane by its index,
/// whether it is in the set.
#[derive(Drop)]
pub struct LaneSet {
    bits: u16,
}

impl Model for LaneSet {
    ghost use Rattle.std.specs.Prelude.{Bool, List};
    ghost use Rattle.root_deadlines.specs.Bits.{flags_of};

    ghost Value = { List Bool };

    ghost view = { λ set. flags_of set.bits };

    ghost use Rattle.std.specs.Prelude.{◌<◌, ◌^◌};

    ghost invariant = { λ set. set.bits < 2 ^ 10 };
}

/// The bits of the lanes whose bucket is higher than this one.
fn bits_above(bucket: Bucket) -> u16
    ensures { result ≡ 2 ^ bound_index bucket - 1 }
{
    match bucket {
        Bucket::Ui | Bucket::Fg => 0,
        Bucket::Ini => 0b11,
        Bucket::Df => 0b1111,
        Bucket::Ut => 0b11_1111,
        Bucket::Bg => 0b1111_1111,
    }
}

impl LaneSet {
    /// The set of no lane.
    pub fn none() -> LaneSet
        ensures { result ≡ replicate 10 false }
    {
        LaneSet { bits: 0 }
    }

    /// The same set once more.
    pub fn copy(&self) -> LaneSet
        ensures { result ≡ self.now }
    {
        LaneSet { bits: self.bits }
    }

    /// Puts a lane into the set, or takes it out. The other lanes stay.
    pub fn set(&mut self, lane: Lane, is_in: bool)
        requires { lane.bucket ≢ Bucket.Ui }
        ensures { self.new ≡ slice_set self.old (index_of_lane lane) is_in }
    {
        if is_in {
            self.bits |= 1 << lane_index(lane);
        } else {
            self.bits &= !(1 << lane_index(lane));
        }
    }

    /// Whether a lane is in the set.
    pub fn contains(&self, lane: Lane) -> bool
        requires { lane.bucket ≢ Bucket.Ui }
        ensures { result ≡ slice_index_or self.now (index_of_lane lane) false }
    {
        (self.bits >> lane_index(lane)) & 1 == 1
    }

    /// Whether no lane is in the set.
    pub fn is_empty(&self) -> bool
        ensures { IsTrue result ↔ (filled_among self.now timeshare_lanes ≡ []) }
    {
        self.bits == 0
    }

    /// Takes the highest lane out of the set, and gives its index. `None` exactly where no lane is in
    /// the set.
    pub fn take_highest(&mut self) -> Option<usize>
        ensures small { IfSome result (λ i. i < 10) }
        ensures highest { option_and_then (slice_get timeshare_lanes) result
            ≡ first_of (filled_among self.old timeshare_lanes) }
        ensures rest { self.new ≡ behind_first self.old }
    {
        let lowest_bit = self.bits.trailing_zeros() as usize;
        self.bits &= self.bits.wrapping_sub(1);
        if lowest_bit < 10 {
            Some(lowest_bit)
        } else {
            None
        }
    }

    /// The lanes of the set whose bucket is higher than this one.
    pub fn higher_than(&self, bucket: Bucket) -> LaneSet
        ensures { result ≡ higher_than bucket timeshare_lanes self.now }
    {
        LaneSet {
            bits: self.bits & bits_above(bucket),
        }
    }
}
