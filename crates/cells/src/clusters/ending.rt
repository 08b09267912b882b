//! The held clusters of a run end.
ghost use Rattle.std.specs.Prelude.{◌≡◌, ◌<◌, ◌≤◌, ◌+◌, ◌++◌, flat_map, sum_by, vec_capacity, vec_len};
ghost use Rattle.cells.specs.Desks.{StandsAt, yard_slot_desk};
ghost use Rattle.cells.specs.Making.{journal_in, queued_at};

use super::Clusters;
use crate::desk_set::DeskSet;
use crate::held_cluster::HeldCluster;
use crate::run_name::RunName;
use flat_policy::cluster::Cluster;
use flat_policy::journal::Journal;
use rights::Share;

impl<K: Cluster, N: RunName> Clusters<K, N> {
    /// Ends each held cluster with every thread in it. Their journals are put behind others in order, and the yard's slot
    /// rights of the threads are joined to a share.
    pub(crate) fn close(self, desks: &DeskSet, journals: &mut Vec<Journal>, rights: &mut Share)
        requires desks { desks.now ≡ N.desks }
        requires room { vec_len journals.old + 8 ≤ vec_capacity journals.old }
        requires rights { StandsAt N.desks yard_slot_desk rights.old.desk }
        ensures journals { journals.new.items ≡ journals.old.items ++ flat_map journal_in self }
        ensures len { vec_len journals.new ≤ vec_len journals.old + 8 }
        ensures room { vec_capacity journals.new ≡ vec_capacity journals.old }
        ensures rights { rights.new ≡ record rights.old { amount = rights.old.amount + sum_by queued_at self } }
    {
        let Clusters {
            at0,
            at1,
            at2,
            at3,
            at4,
            at5,
            at6,
            at7,
        } = self;
        close_in(at0, desks, journals, rights);
        close_in(at1, desks, journals, rights);
        close_in(at2, desks, journals, rights);
        close_in(at3, desks, journals, rights);
        close_in(at4, desks, journals, rights);
        close_in(at5, desks, journals, rights);
        close_in(at6, desks, journals, rights);
        close_in(at7, desks, journals, rights);
    }
}

// Ends the held cluster of a place, where there is one, with every thread in it.
fn close_in<K: Cluster, N: RunName, const C: usize>(
    place: Option<HeldCluster<K, N, C>>,
    desks: &DeskSet,
    journals: &mut Vec<Journal>,
    rights: &mut Share,
)
    requires desks { desks.now ≡ N.desks }
    requires room { vec_len journals.old < vec_capacity journals.old }
    requires rights { StandsAt N.desks yard_slot_desk rights.old.desk }
    ensures journals { journals.new.items ≡ journals.old.items ++ journal_in place }
    ensures len { vec_len journals.new ≤ vec_len journals.old + 1 }
    ensures room { vec_capacity journals.new ≡ vec_capacity journals.old }
    ensures rights { rights.new ≡ record rights.old { amount = rights.old.amount + queued_at place } }
{
    match place {
        Some(held) => {
            let (journal, more) = held.close();
            journals.push_reserved(journal);
            desks.join(16, rights, more);
        }
        None => (),
    }
}
