//! The homes of actors, as the journals of the clusters tell them.

ghost use Rattle.std.specs.Prelude.{◌≡◌, ◌<◌, ◌≤◌, ℕ, if◌then◌else◌, length, slice_index};
ghost use Rattle.flat_policy.specs.Runs.Interleaving.{home_by_journals, is_home_journal};
ghost use Rattle.stitch.specs.Taking.{lines_of};

use crate::lines::is_at_home;
use flat_policy::journal::Journal;
use sched_base::limits::MOST_ACTORS;

/// The home of each actor: the first cluster whose journal holds a select, pull or refresh of it,
/// or cluster 0 where none does.
pub fn homes_of(clusters: &[Journal]) -> [u8; MOST_ACTORS]
    requires { length clusters.now ≤ 8 }
    ensures { (a : ℕ) → a < 16 → slice_index result a ≡ home_by_journals (lines_of clusters.now) a }
{
    let mut homes = [0; MOST_ACTORS];
    let mut c = clusters.len();
    while c > 0 {
        c -= 1;
        mark_homes(&mut homes, &clusters[c], c as u8);
    }
    homes
}

/// Makes a cluster the home of each actor of which its journal holds a select, pull or refresh.
fn mark_homes(homes: &mut [u8; MOST_ACTORS], journal: &Journal, cluster: u8)
    ensures { (a : ℕ) → a < 16 → slice_index homes.new a ≡ (if is_home_journal a journal.now.lines then cluster else slice_index homes.old a) }
{
    for i in 0..journal.len() {
        let step = journal.line(i).entry.step;
        if is_at_home(&step.act) && (step.actor as usize) < MOST_ACTORS {
            homes[step.actor as usize] = cluster;
        }
    }
}
