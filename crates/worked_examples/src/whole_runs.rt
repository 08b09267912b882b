//! Whole runs, as theorems: one history is a run of the machine, of each cluster and of the yard, follows the worker rule for each
//! actor, and is put together of its journals and logs.

ghost use Rattle.worked_examples.specs.Examples.Offering.{OfferingIsMerged, OfferingIsWhole, OfferingReplies};
ghost use Rattle.worked_examples.specs.Examples.OneThread.{OneThreadIsMerged, OneThreadIsWhole, OneThreadReplies, OneThreadText};
ghost use Rattle.worked_examples.specs.Examples.Powers.{PowerIsMerged, PowerIsWhole, PowerReplies};

/// The run of one thread: its replies.
pub fn one_thread_replies()
    ensures { OneThreadReplies }
{}

/// It is a whole run.
pub fn one_thread_is_whole()
    ensures { OneThreadIsWhole }
{}

/// It is the interleaving of its journals.
pub fn one_thread_is_merged()
    ensures { OneThreadIsMerged }
{}

/// It has a text.
pub fn one_thread_text()
    ensures { OneThreadText }
{}

/// The run of two actors that offer across an edge: its replies.
pub fn offering_replies()
    ensures { OfferingReplies }
{}

/// It is a whole run.
pub fn offering_is_whole()
    ensures { OfferingIsWhole }
{}

/// It is the interleaving of its journals and logs.
pub fn offering_is_merged()
    ensures { OfferingIsMerged }
{}

/// The run whose cluster is turned off and on: its replies.
pub fn power_replies()
    ensures { PowerReplies }
{}

/// It is a whole run.
pub fn power_is_whole()
    ensures { PowerIsWhole }
{}

/// It is the interleaving of its journals.
pub fn power_is_merged()
    ensures { PowerIsMerged }
{}
