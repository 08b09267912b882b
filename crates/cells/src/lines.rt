//! Line rights of all places, carried together.
ghost use Rattle.std.specs.Prelude.{◌≡◌, ◌≤◌};
ghost use Rattle.cells.specs.Desks.{StandsAt};
ghost use Rattle.cells.specs.Lines.{IsPlace, fewer_at, left_at, line_desk_of, more_at};
ghost use Rattle.cells.specs.Packs.{AreLinesOf, joined};

use crate::desk_set::DeskSet;
use crate::run_name::RunName;
use rights::Share;
use sched_base::Spot;
use std::marker::{Model, PhantomData};

/// A share of the line rights of each cluster and of the yard, of the desks of one run. Contracts see how many each
/// share has. One that is dropped takes its rights with it: they stay minted, and nobody has them.
#[derive(Drop)]
pub struct Lines<N: RunName> {
    pub(crate) line0: Share,
    pub(crate) line1: Share,
    pub(crate) line2: Share,
    pub(crate) line3: Share,
    pub(crate) line4: Share,
    pub(crate) line5: Share,
    pub(crate) line6: Share,
    pub(crate) line7: Share,
    pub(crate) yard: Share,
    run: PhantomData<N>,
}

impl<N: RunName> Model for Lines<N> {
    ghost use Rattle.cells.specs.Packs.{Amounts, AreLinesOf};

    ghost Value = { Amounts };

    ghost view = { λ l. record {
      at0 = l.line0.amount;
      at1 = l.line1.amount;
      at2 = l.line2.amount;
      at3 = l.line3.amount;
      at4 = l.line4.amount;
      at5 = l.line5.amount;
      at6 = l.line6.amount;
      at7 = l.line7.amount;
      yard = l.yard.amount;
    } };

    ghost invariant = { λ l. AreLinesOf N.desks l.line0.desk l.line1.desk l.line2.desk l.line3.desk l.line4.desk l.line5.desk l.line6.desk l.line7.desk l.yard.desk };
}

// A call of the desks on the share of a place and a last argument.
macro_rules! at_place {
    ($lines:ident, $desks:ident, $spot:ident, $call:ident, $last:expr) => {
        match $spot {
            Spot::Cluster(0) => $desks.$call(1, &mut $lines.line0, $last),
            Spot::Cluster(1) => $desks.$call(3, &mut $lines.line1, $last),
            Spot::Cluster(2) => $desks.$call(5, &mut $lines.line2, $last),
            Spot::Cluster(3) => $desks.$call(7, &mut $lines.line3, $last),
            Spot::Cluster(4) => $desks.$call(9, &mut $lines.line4, $last),
            Spot::Cluster(5) => $desks.$call(11, &mut $lines.line5, $last),
            Spot::Cluster(6) => $desks.$call(13, &mut $lines.line6, $last),
            Spot::Cluster(_) => $desks.$call(15, &mut $lines.line7, $last),
            Spot::Yard => $desks.$call(17, &mut $lines.yard, $last),
        }
    };
}

impl<N: RunName> Lines<N> {
    /// Puts shares together: those of the clusters in order, and that of the yard.
    pub(crate) fn of(
        line0: Share,
        line1: Share,
        line2: Share,
        line3: Share,
        line4: Share,
        line5: Share,
        line6: Share,
        line7: Share,
        yard: Share,
    ) -> Lines<N>
        requires { AreLinesOf N.desks line0.desk line1.desk line2.desk line3.desk line4.desk line5.desk line6.desk line7.desk yard.desk }
        ensures { result ≡ record {
          at0 = line0.amount;
          at1 = line1.amount;
          at2 = line2.amount;
          at3 = line3.amount;
          at4 = line4.amount;
          at5 = line5.amount;
          at6 = line6.amount;
          at7 = line7.amount;
          yard = yard.amount;
        } }
    {
        Lines {
            line0,
            line1,
            line2,
            line3,
            line4,
            line5,
            line6,
            line7,
            yard,
            run: PhantomData,
        }
    }

    /// Splits one line right of a place off. The place is a cluster below 8 or the yard, and at least one is left there. Those
    /// of the other places stay.
    pub fn take(&mut self, desks: &DeskSet, spot: Spot) -> Share
        requires desks { desks.now ≡ N.desks }
        requires place { IsPlace spot }
        requires some { 1 ≤ left_at spot self.old }
        ensures left { self.new ≡ fewer_at spot self.old }
        ensures desk { StandsAt N.desks (line_desk_of spot) result.desk }
        ensures one { result.amount ≡ 1 }
    {
        at_place!(self, desks, spot, split, 1)
    }

    /// Joins a share of the line rights of a place to those that are left there. The place is a cluster below 8 or the yard.
    /// Those of the other places stay.
    pub fn put(&mut self, desks: &DeskSet, spot: Spot, s: Share)
        requires desks { desks.now ≡ N.desks }
        requires place { IsPlace spot }
        requires desk { StandsAt N.desks (line_desk_of spot) s.desk }
        ensures { self.new ≡ more_at spot s.amount self.old }
    {
        at_place!(self, desks, spot, join, s)
    }

    /// Joins each share of another with its like.
    pub fn join(&mut self, desks: &DeskSet, l: Lines<N>)
        requires desks { desks.now ≡ N.desks }
        ensures { self.new ≡ joined self.old l }
    {
        desks.join(1, &mut self.line0, l.line0);
        desks.join(3, &mut self.line1, l.line1);
        desks.join(5, &mut self.line2, l.line2);
        desks.join(7, &mut self.line3, l.line3);
        desks.join(9, &mut self.line4, l.line4);
        desks.join(11, &mut self.line5, l.line5);
        desks.join(13, &mut self.line6, l.line6);
        desks.join(15, &mut self.line7, l.line7);
        desks.join(17, &mut self.yard, l.yard);
    }
}
