//! A thread with its rights.
ghost use Rattle.std.specs.Prelude.{◌≡◌, ◌≤◌};
ghost use Rattle.sched_base.specs.Facts.{charged};
ghost use Rattle.cells.specs.Courses.{Fits};
ghost use Rattle.cells.specs.Desks.{StandsAt};
ghost use Rattle.cells.specs.Packs.{each_cluster, one_each};

use crate::desk_set::DeskSet;
use crate::pack::Pack;
use crate::run_name::RunName;
use rights::Share;
use sched_base::limits::MOST_RATE;
use sched_base::{Facts, Thread};
use std::marker::Model;

/// One slot right of each cluster of a run. Only this crate makes one.
#[derive(Drop)]
pub struct Slots<N: RunName> {
    pack: Pack<N>,
    ghost each: { pack ≡ each_cluster },
}

/// A thread of a run with one slot right of each cluster and of the yard. Contracts see the thread's facts. Like a
/// thread it can't be let go by accident, so no closure captures one.
pub struct Rider<N: RunName> {
    thread: Thread,
    pack: Pack<N>,
}

impl<N: RunName> Model for Rider<N> {
    ghost use Rattle.std.specs.Prelude.{◌≡◌};
    ghost use Rattle.sched_base.specs.declared.facts.Facts.{Facts};
    ghost use Rattle.cells.specs.Courses.{Fits};
    ghost use Rattle.cells.specs.Packs.{one_each};

    ghost Value = { Facts };

    ghost view = { λ r. r.thread };

    ghost invariant = { λ r. Fits N.setup N.programs r.thread × (r.pack ≡ one_each) };
}

impl<N: RunName> Slots<N> {
    /// Puts the rights together.
    pub(crate) fn of(pack: Pack<N>) -> Slots<N>
        requires { pack ≡ each_cluster }
    {
        Slots { pack }
    }
}

impl<N: RunName> Rider<N> {
    /// A thread that fits, with its rights.
    pub(crate) fn of(thread: Thread, pack: Pack<N>) -> Rider<N>
        requires fits { Fits N.setup N.programs thread }
        requires rights { pack ≡ one_each }
        ensures { result ≡ thread }
    {
        Rider { thread, pack }
    }

    /// A thread that fits, with one slot right of each cluster and one of the yard.
    pub(crate) fn enlisted(
        desks: &DeskSet,
        thread: Thread,
        slots: Slots<N>,
        yard: Share,
    ) -> Rider<N>
        requires own { desks.now ≡ N.desks }
        requires fits { Fits N.setup N.programs thread }
        requires yard { StandsAt N.desks 16 yard.desk × (yard.amount ≡ 1) }
        ensures { result ≡ thread }
    {
        let Slots { pack } = slots;
        let mut pack = pack;
        pack.join_yard(desks, yard);
        Rider { thread, pack }
    }

    /// The thread's facts.
    pub fn facts(&self) -> Facts
        ensures facts { result ≡ self.now }
        ensures fits { Fits N.setup N.programs self.now }
    {
        self.thread.facts()
    }

    /// Charges the thread for `us` microseconds at a rate in thousandths.
    pub fn charge(&mut self, us: u32, rate: u32)
        requires { rate ≤ MOST_RATE }
        ensures { self.new ≡ charged us rate self.old }
    {
        self.thread.charge(us, rate);
    }

    /// The thread, and its rights.
    pub(crate) fn into_parts(self) -> (Thread, Pack<N>)
        ensures thread { result.0 ≡ self }
        ensures fits { Fits N.setup N.programs self }
        ensures rights { result.1 ≡ one_each }
    {
        let Rider { thread, pack } = self;
        (thread, pack)
    }
}
