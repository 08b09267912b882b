//! What the definitions refuse, as theorems: each example is good but for one line, or is a policy that is wrong in one way.

ghost use Rattle.worked_examples.specs.Examples.Refused.{EntersWhatItHolds, IdleNeedsOffers, MarkIsSpan, MovedLineFitsNowhere, OffIsNeeded, TakenIsPlaced, WakeIsDue};
ghost use Rattle.worked_examples.specs.Examples.WrongWindows.{KeepingDeadlinesIsRefused, NeverEndingIsRefused};

/// A turn that ends idle has asked its neighbours.
pub fn idle_needs_offers()
    ensures { IdleNeedsOffers }
{}

/// The mark of a sleep is the program's span.
pub fn mark_is_span()
    ensures { MarkIsSpan }
{}

/// A thread that a turn took is placed.
pub fn taken_is_placed()
    ensures { TakenIsPlaced }
{}

/// A thread is woken at its moment, and not before.
pub fn wake_is_due()
    ensures { WakeIsDue }
{}

/// A hand gives away the thread that it holds, and no other.
pub fn enters_what_it_holds()
    ensures { EntersWhatItHolds }
{}

/// A turn with a power begins with it.
pub fn off_is_needed()
    ensures { OffIsNeeded }
{}

/// Lines stand in the order of their journals.
pub fn moved_line_fits_nowhere()
    ensures { MovedLineFitsNowhere }
{}

/// The starvation law refuses a policy in which no window ends.
pub fn never_ending_is_refused()
    ensures { NeverEndingIsRefused }
{}

/// The starvation law refuses a policy in which a window ends without a new deadline.
pub fn keeping_deadlines_is_refused()
    ensures { KeepingDeadlinesIsRefused }
{}
