//! Scores of bound units, and whether the user interface goes before all timeshare lanes.
//!
//! Whether a lane of the user interface goes first (a caller in the tests):
//!
//! ```
//! let tops = Tops {
//!     ui,
//!     ui_bound,
//!     fg,
//!     fg_bound,
//! };
//! assert_eq!(rt; above_ui(&tops), expected); // such as `Some(false)` where only `ui` is there
//! ```
//!
//! No call here takes memory or refuses.
#![tactic(auto)]

ghost use Rattle.std.specs.Prelude.{◌≡◌, option_map};
ghost use Rattle.sched_base.specs.declared.buckets.Bucket.TheVariants.{Ui};
ghost use Rattle.flat_policy.specs.Policy.Queue.{Flat, lane};
ghost use Rattle.flat_policy.specs.Policy.Usage.{bound_score};
ghost use Rattle.flat_policy.specs.Policy.Windows.{above_ui};
ghost use Rattle.bound_buckets.specs.Tops.{above_ui_of, at_least, greater_of, tops_of};

pub mod laws;

pub use sched_base::Bucket;

/// The greatest unit priorities of the lanes of `Ui` and `Fg`; `None` for an empty lane.
#[derive(Clone, Copy, Debug, PartialEq, Eq)]
pub struct Tops {
    /// Of the unbound user interface.
    pub ui: Option<u8>,
    /// Of the bound user interface.
    pub ui_bound: Option<u8>,
    /// Of the unbound foreground.
    pub fg: Option<u8>,
    /// Of the bound foreground.
    pub fg_bound: Option<u8>,
}

/// Whether the chosen lane of the user interface is the bound one, where one is chosen before all
/// timeshare lanes: the one with the greater unit priority, and the bound one on a tie. `None`
/// exactly where none is chosen: no thread of `Ui` is queued, or a unit of `Fg` has a greater
/// priority than all units of `Ui`.
pub fn above_ui(t: &Tops) -> Option<bool>
    ensures tops { result ≡ above_ui_of t.now }
    ensures queue { (s : Flat) → t.now ≡ tops_of s → option_map (lane Ui) result ≡ above_ui s }
{
    let ui = greatest(t.ui_bound, t.ui);
    let fg = greatest(t.fg_bound, t.fg);
    let bound = is_at_least(t.ui_bound, t.ui);
    is_at_least(ui, fg).then_some(bound)
}

/// The greater of two priorities, each of which may be missing.
fn greatest(a: Option<u8>, b: Option<u8>) -> Option<u8>
    ensures { result ≡ greater_of a b }
{
    match (a, b) {
        (Some(x), Some(y)) => Some(x.max(y)),
        (None, other) | (other, None) => other,
    }
}

/// Whether the first priority is there, and the second is missing or not greater.
fn is_at_least(a: Option<u8>, b: Option<u8>) -> bool
    ensures { result ≡ at_least a b }
{
    match (a, b) {
        (Some(x), Some(y)) => x >= y,
        (Some(_), None) => true,
        (None, _) => false,
    }
}

/// The score that the threads of a bound unit add to their priority: 16 for `Ui` and 8 otherwise.
pub fn bound_score(b: Bucket) -> u8
    ensures { result ≡ bound_score b }
{
    match b {
        Bucket::Ui => 16,
        _ => 8,
    }
}

#[cfg(test)]
mod tests;
