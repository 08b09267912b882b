//! Single lines: whether two are the same, and where one happens.

ghost use Rattle.std.specs.Prelude.{◌≡◌, ◌↔◌, IsTrue, slice_get};
ghost use Rattle.flat_policy.specs.Policy.Machine.{site_of, spot_from};
ghost use Rattle.flat_policy.specs.Runs.Interleaving.{is_at_home as is_home_site};

use flat_policy::journal::{Journal, Line};
use sched_base::{Act, Answer, Entry, Facts, Spot, Step};

/// Whether two lines have one entry and one mark.
#[tactic(auto, using(crate::proofs::Same::same_lines))]
pub fn is_same(a: &Line, b: &Line) -> bool
    ensures { IsTrue result ↔ a.now ≡ b.now }
{
    is_same_entry(&a.entry, &b.entry) && is_same_mark(&a.mark, &b.mark)
}

/// Whether two entries have one step, one answer and one thread.
#[tactic(auto, using(crate::proofs::Same::same_entries))]
fn is_same_entry(a: &Entry, b: &Entry) -> bool
    ensures { IsTrue result ↔ a.now ≡ b.now }
{
    is_same_step(&a.step, &b.step)
        && is_same_answer(&a.answer, &b.answer)
        && is_same_thread(&a.thread, &b.thread)
}

fn is_same_step(a: &Step, b: &Step) -> bool
    ensures { IsTrue result ↔ a.now ≡ b.now }
{
    a == b
}

fn is_same_answer(a: &Answer, b: &Answer) -> bool
    ensures { IsTrue result ↔ a.now ≡ b.now }
{
    a == b
}

fn is_same_thread(a: &Option<Facts>, b: &Option<Facts>) -> bool
    ensures { IsTrue result ↔ a.now ≡ b.now }
{
    a == b
}

fn is_same_mark(a: &Option<u32>, b: &Option<u32>) -> bool
    ensures { IsTrue result ↔ a.now ≡ b.now }
{
    a == b
}

/// The line of a journal or log behind `taken` of its lines, where it has one.
pub fn line_after(journal: &Journal, taken: u64) -> Option<Line>
    ensures { result ≡ slice_get journal.now.lines taken }
{
    if taken < journal.len() {
        Some(journal.line(taken))
    } else {
        None
    }
}

/// Whether an act happens at its actor's home.
pub fn is_at_home(act: &Act) -> bool
    ensures { result ≡ is_home_site (site_of act.now) }
{
    match act {
        Act::Select | Act::Pull { .. } | Act::Refresh => true,
        _ => false,
    }
}

/// Where an act of an actor with a home happens, or `None` where it happens in the hand alone.
pub fn spot_of(home: u8, act: &Act) -> Option<Spot>
    ensures { result ≡ spot_from home (site_of act.now) }
{
    match act {
        Act::Enter { cluster, .. }
        | Act::Offer { cluster }
        | Act::Look { cluster }
        | Act::Off { cluster }
        | Act::On { cluster } => Some(Spot::Cluster(*cluster)),
        Act::Select | Act::Pull { .. } | Act::Refresh => Some(Spot::Cluster(home)),
        Act::Make { .. } | Act::Sleep | Act::Wake { .. } | Act::End | Act::Blocked => {
            Some(Spot::Yard)
        }
        Act::Aim | Act::Ran { .. } => None,
    }
}
