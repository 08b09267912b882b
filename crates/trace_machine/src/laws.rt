//! Laws of lists of steps. Each is the contract of a function that does nothing.

ghost use Rattle.trace_machine.specs.Laws.{BlockedAreLive, RepliesAreHistories, StepsLeaveEachNameOnce};

use flat_policy::laws::{empty_is_sound, runs_keep_counts, steps_keep_sound};

/// The replies to steps that the setup fits are a history of the policy's machine, so that every law
/// of histories holds of them: also that takers may take.
pub fn replies_are_histories()
    ensures { RepliesAreHistories }
{
    steps_keep_sound();
    empty_is_sound();
}

/// After every list of steps that the setup fits each name that was made stands in exactly one place,
/// and no other name in any; `Machine::place` names that place.
pub fn steps_leave_each_name_once()
    ensures { StepsLeaveEachNameOnce }
{
    replies_are_histories();
    runs_keep_counts();
}

/// After every history of the machine no more threads are blocked than live, so that their number is
/// in range where that of the live threads is.
pub fn blocked_are_live()
    ensures { BlockedAreLive }
{
    runs_keep_counts();
}
