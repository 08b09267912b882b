//! Laws of the tops. Each is the contract of a function that does nothing.

ghost use Rattle.bound_buckets.specs.Units.{TopsAreOfUnits, TopsInOnePass};

use flat_policy::laws::{lane_priorities_are_of_units, lane_priority_by_entries};

/// In a well-formed queue the greatest unit priority of a filled bound lane is that of its bound unit,
/// and of a filled unbound lane that of its first clutch bucket; an empty lane has none.
pub fn tops_are_of_units()
    ensures { TopsAreOfUnits }
{
    lane_priorities_are_of_units();
}

/// One pass over the entries of a queue finds the greatest unit priority of a lane: the greatest sum of
/// an entry's priority and its unit's score.
pub fn tops_in_one_pass()
    ensures { TopsInOnePass }
{
    lane_priority_by_entries();
}
