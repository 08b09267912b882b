//! The held values of a run end.
ghost use Rattle.std.specs.Prelude.{◌≡◌, ◌≤◌, ◌+◌, length};
ghost use Rattle.cells.specs.Making.{all_journals, all_queued};
ghost use Rattle.cells.specs.Stills.{KeepAll};

use super::Still;
use crate::run_name::RunName;
use flat_policy::cluster::Cluster;
use flat_policy::journal::Journal;

/// The number of the desk of the yard's slots.
const YARD_SLOTS: usize = 16;

/// What is left of all held values: the journals, those of the clusters in order and last the yard's, and how many threads
/// were made, and were queued, blocked and ended at the end.
#[derive(Drop)]
pub struct Closed {
    pub journals: Vec<Journal>,
    pub made: u32,
    pub queued: u32,
    pub blocked: u32,
    pub ended: u32,
}

impl<K: Cluster, N: RunName> Still<K, N> {
    /// Ends all held values with every thread in them. It takes no memory. No more threads are queued, blocked and ended than
    /// were made, since each of them left its slot right of the yard behind.
    pub fn close(self) -> Closed
        ensures kept { KeepAll N.setup N.programs N.desks self }
        ensures journals { result.journals.items ≡ all_journals self }
        ensures made { result.made ≡ length self.yard.yard.made }
        ensures queued { result.queued ≡ all_queued self }
        ensures blocked { result.blocked ≡ length self.yard.yard.blocked }
        ensures ended { result.ended ≡ length self.yard.yard.ended }
        ensures law { result.queued + result.blocked + result.ended ≤ result.made }
    {
        self.keeps();
        let Still {
            desks,
            clusters,
            yard,
            frame: _,
            stock: _,
            no_lines: _,
            journals,
        } = self;
        let mut journals = journals;
        let (last, mut book, mut rights) = yard.close();
        let ended = rights.amount();
        clusters.close(&desks, &mut journals, &mut rights);
        journals.push_reserved(last);
        let made = book.minted() as u32;
        let blocked = book.parked() as u32;
        let all = rights.amount();
        // The rule of the rights tells the law.
        book.take_in(desks.desk(YARD_SLOTS), rights);
        let queued = (all - ended) as u32;
        Closed {
            journals,
            made,
            queued,
            blocked,
            ended: ended as u32,
        }
    }
}
