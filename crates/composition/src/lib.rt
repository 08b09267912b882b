//! What histories of clusters and actors come to together: laws of journals and logs whose lines are put into one
//! order. Each law is the contract of a function that does nothing but name the laws that it rests on.
//!
//! A function rests on a law by calling it, as here `totals_are_those_made`:
//!
//! ```
//! pub fn totals_are_those_made()
//!     ensures { TotalsAreThoseMade }
//! {
//!     joined_runs_are_histories();
//! }
//! ```
#![tactic(auto)]

ghost use Rattle.composition.specs.Laws.{FinishedRunsAreWhole, JoinedRunsAreHistories, SpotsAreTheSetups, TotalsAreThoseMade};

use flat_policy::laws::{empty_is_sound, runs_keep_counts, steps_keep_counts, steps_keep_sound};

/// Journals of the clusters and of the yard and logs of the actors, each of them a history by itself, are
/// together a history of the machine in every order that keeps each of them, and leave the machine in the state that
/// each of them leaves its place in.
pub fn joined_runs_are_histories()
    ensures { JoinedRunsAreHistories }
{
    steps_keep_sound();
    steps_keep_counts();
    empty_is_sound();
    runs_keep_counts();
}

/// Each line of such an order has the place by the journals that it has by the setup.
pub fn spots_are_the_setups()
    ensures { SpotsAreTheSetups }
{
    steps_keep_sound();
    steps_keep_counts();
    empty_is_sound();
    runs_keep_counts();
}

/// Where the logs end with empty hands, the threads queued, blocked and ended are together exactly those made.
pub fn totals_are_those_made()
    ensures { TotalsAreThoseMade }
{
    joined_runs_are_histories();
}

/// Logs by the worker rule and journals, in one order and with nothing left over, are a whole run: at once a history
/// of the machine, of each place and of each actor, among whose lines each program has its end line.
pub fn finished_runs_are_whole()
    ensures { FinishedRunsAreWhole }
{
    joined_runs_are_histories();
    spots_are_the_setups();
    runs_keep_counts();
}
