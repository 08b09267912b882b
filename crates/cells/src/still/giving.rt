//! Threads are made, and line rights are minted, where there are held values of a whole run.
ghost use Rattle.std.specs.Prelude.{◌≡◌, ◌<◌, ◌≤◌, ◌+◌, ◌*◌, ◌==◌, ◌^◌, ℕ, Contains, IfOk, OnErr, OnOk, false};
ghost use Rattle.std.specs.List.{list_any};
ghost use Rattle.sched_base.specs.declared.Spot.TheVariants as spots;
ghost use Rattle.flat_policy.specs.Policy.Setup.{actor_count, cluster_count};
ghost use Rattle.flat_policy.specs.Runs.Histories.{live_of_run};
ghost use Rattle.trace_text.specs.Runs.{program_of};
ghost use Rattle.cells.specs.Courses.{OnCourse};
ghost use Rattle.cells.specs.Frames.{AreRunnable};
ghost use Rattle.cells.specs.Lines.{fewer_at, left_at};
ghost use Rattle.cells.specs.Making.{AtMost, HasFreeAll, HasMinted, HasRights, HasSpareAll, IsButFree, IsButSpare, Made, at_each, made_of};

use super::Still;
use crate::done::Done;
use crate::lines::Lines;
use crate::rider::Rider;
use crate::run_name::RunName;
use flat_policy::cluster::Cluster;
use flat_policy::setup::Setup;
use flat_policy::texts::ProgramLine;
use sched_base::limits::{MOMENT_LIMIT, MOST_THREADS};
use sched_base::{Spot, Thread};
use std::alloc::AllocError;

/// How many line rights of each place a turn takes.
const LINES_OF_TURN: u64 = 4;

impl<K: Cluster, N: RunName> Still<K, N> {
    /// Does nothing. It tells a proof that a slot right of each place may be given out where fewer than 4096 are.
    pub fn has_rights(&self)
        ensures { (k : ℕ) → k < MOST_THREADS → AtMost k self.now → HasRights self.now }
    {
        let _ = &self.yard;
    }

    /// Makes a thread of a program, with one line right of the yard. It gets one slot right of each place, those of the places
    /// that aren't filled out of the stock. Room is reserved at every place first, so that an error changes nothing but spare
    /// room; it is want of memory.
    pub fn make(
        &mut self,
        actor: u8,
        p: &ProgramLine,
        now: u64,
        lines: &mut Lines<N>,
    ) -> Result<Done<Rider<N>>, AllocError>
        requires program { Contains N.programs (program_of p.now) }
        requires unused { list_any (λ n. n == p.now.name) self.old.yard.yard.made ≡ false }
        requires live { live_of_run self.old.yard.yard < N.setup.threads }
        requires rights { HasRights self.old }
        requires line { 1 ≤ left_at spots.Yard lines.old }
        requires actor { actor < actor_count N.setup }
        requires moment { now < MOMENT_LIMIT }
        ensures made { IfOk result (λ d. Made N.setup actor (program_of p.now) now self.old self.new d.entry d.value) }
        ensures course { IfOk result (λ d. OnCourse N.setup N.programs d.value) }
        ensures few { OnOk result ((k : ℕ) → AtMost k self.old → AtMost (k + 1) self.new) }
        ensures line { OnOk result (lines.new ≡ fewer_at spots.Yard lines.old) }
        ensures err { OnErr result (IsButSpare self.old self.new) }
        ensures kept { OnErr result (lines.new ≡ lines.old) }
    {
        self.reserve_slots()?;
        self.keeps();
        self.frame.keeps();
        let moment = now.max(self.yard.last());
        let thread = fresh_thread::<N>(self.frame.setup(), p, moment);
        let slots = self.clusters.mint_slots(&self.desks, &mut self.stock);
        let line = lines.take(&self.desks, Spot::Yard);
        Ok(
            self.yard
                .enlist(&self.desks, actor, thread, slots, now, line),
        )
    }

    /// Mints the line rights of so many turns: four of each place a turn. Room is reserved at every place first, so that an
    /// error changes nothing but free room; it is want of memory.
    pub fn shares(&mut self, turns: u32) -> Result<Lines<N>, AllocError>
        ensures shares { IfOk result (λ l. l ≡ at_each (cluster_count N.setup) (4 * turns)) }
        ensures minted { OnOk result (HasMinted (4 * turns) self.old self.new) }
        ensures few { OnOk result ((k : ℕ) → AtMost k self.old → AtMost k self.new) }
        ensures err { OnErr result (IsButFree self.old self.new) }
    {
        let n = LINES_OF_TURN * u64::from(turns);
        self.reserve_lines(n)?;
        let yard = self.yard.mint_lines(&self.desks, n);
        Ok(
            self.clusters
                .mint_lines(&self.desks, n, &mut self.no_lines, yard),
        )
    }

    /// Makes the free room of each place so great that `n` line rights more may be minted.
    fn reserve_lines(&mut self, n: u64) -> Result<(), AllocError>
        requires { n < 2 ^ 40 }
        ensures but { IsButFree self.old self.new }
        ensures room { OnOk result (HasFreeAll n self.new) }
    {
        if self.clusters.reserve_lines(n) {
            self.yard.reserve_lines(n)
        } else {
            Err(AllocError)
        }
    }

    /// Makes room at each place for one thread more than slot rights are out.
    fn reserve_slots(&mut self) -> Result<(), AllocError>
        ensures but { IsButSpare self.old self.new }
        ensures room { OnOk result (HasSpareAll self.new) }
    {
        if self.clusters.reserve_slots() {
            self.yard.keeps();
            self.yard.reserve_slot()
        } else {
            Err(AllocError)
        }
    }
}

// A thread of a program of the run, made at a moment.
fn fresh_thread<N: RunName>(setup: &Setup, p: &ProgramLine, moment: u64) -> Thread
    requires setup { setup.now ≡ N.setup }
    requires program { Contains N.programs (program_of p.now) }
    requires runnable { AreRunnable N.setup N.programs }
    requires moment { moment < MOMENT_LIMIT }
    ensures thread { result ≡ made_of N.setup (program_of p.now) moment }
    ensures course { OnCourse N.setup N.programs result }
{
    let prefer = match p.bound {
        Some(c) => c,
        None => setup.prefer(p.group, p.bucket),
    };
    Thread::new(p.name, p.group, p.bucket, p.base, p.bound, prefer, moment)
}
