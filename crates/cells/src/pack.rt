//! Slot rights of all places, carried together.
ghost use Rattle.std.specs.Prelude.{◌≡◌, ◌+◌, ◌<◌, ◌≤◌, ℕ};
ghost use Rattle.cells.specs.Desks.{slot_desk};
ghost use Rattle.cells.specs.Packs.{AreOf, AtLeastBut, amounts_but, beside, each_cluster, joined, one_each, yard_amounts};
ghost use Rattle.cells.specs.Desks.{StandsAt};
ghost use Rattle.cells.specs.Fresh.{with_more};

use crate::desk_set::DeskSet;
use crate::run_name::RunName;
use rights::{Book, Share};
use std::marker::{Model, PhantomData};

/// A share of the slot rights of each cluster and of the yard, of the desks of one run. Contracts see how many each
/// share has.
#[derive(Drop)]
pub(crate) struct Pack<N: RunName> {
    pub(crate) at0: Share,
    pub(crate) at1: Share,
    pub(crate) at2: Share,
    pub(crate) at3: Share,
    pub(crate) at4: Share,
    pub(crate) at5: Share,
    pub(crate) at6: Share,
    pub(crate) at7: Share,
    pub(crate) yard: Share,
    run: PhantomData<N>,
}

impl<N: RunName> Model for Pack<N> {
    ghost use Rattle.cells.specs.Packs.{Amounts, AreOf};

    ghost Value = { Amounts };

    ghost view = { λ p. record {
      at0 = p.at0.amount;
      at1 = p.at1.amount;
      at2 = p.at2.amount;
      at3 = p.at3.amount;
      at4 = p.at4.amount;
      at5 = p.at5.amount;
      at6 = p.at6.amount;
      at7 = p.at7.amount;
      yard = p.yard.amount;
    } };

    ghost invariant = { λ p. AreOf N.desks p.at0.desk p.at1.desk p.at2.desk p.at3.desk p.at4.desk p.at5.desk p.at6.desk p.at7.desk p.yard.desk };
}

impl<N: RunName> Pack<N> {
    /// Puts shares together: those of the clusters in order, and that of the yard.
    pub(crate) fn of(
        at0: Share,
        at1: Share,
        at2: Share,
        at3: Share,
        at4: Share,
        at5: Share,
        at6: Share,
        at7: Share,
        yard: Share,
    ) -> Pack<N>
        requires { AreOf N.desks at0.desk at1.desk at2.desk at3.desk at4.desk at5.desk at6.desk at7.desk yard.desk }
        ensures { result ≡ record {
          at0 = at0.amount;
          at1 = at1.amount;
          at2 = at2.amount;
          at3 = at3.amount;
          at4 = at4.amount;
          at5 = at5.amount;
          at6 = at6.amount;
          at7 = at7.amount;
          yard = yard.amount;
        } }
    {
        Pack {
            at0,
            at1,
            at2,
            at3,
            at4,
            at5,
            at6,
            at7,
            yard,
            run: PhantomData,
        }
    }

    /// Takes in the rights of another.
    pub(crate) fn join(&mut self, desks: &DeskSet, other: Pack<N>)
        requires own { desks.now ≡ N.desks }
        ensures { self.new ≡ joined self.old other }
    {
        desks.join(0, &mut self.at0, other.at0);
        desks.join(2, &mut self.at1, other.at1);
        desks.join(4, &mut self.at2, other.at2);
        desks.join(6, &mut self.at3, other.at3);
        desks.join(8, &mut self.at4, other.at4);
        desks.join(10, &mut self.at5, other.at5);
        desks.join(12, &mut self.at6, other.at6);
        desks.join(14, &mut self.at7, other.at7);
        desks.join(16, &mut self.yard, other.yard);
    }

    /// Takes in a right of the yard.
    pub(crate) fn join_yard(&mut self, desks: &DeskSet, yard: Share)
        requires own { desks.now ≡ N.desks }
        requires yard { StandsAt N.desks 16 yard.desk }
        ensures { self.new ≡ record self.old { yard = self.old.yard + yard.amount } }
    {
        desks.join(16, &mut self.yard, yard);
    }

    /// Takes the one right of the yard out.
    pub(crate) fn take_yard(&mut self, desks: &DeskSet) -> Share
        requires own { desks.now ≡ N.desks }
        requires whole { self.old ≡ one_each }
        ensures left { self.new ≡ each_cluster }
        ensures desk { StandsAt N.desks 16 result.desk }
        ensures one { result.amount ≡ 1 }
    {
        desks.split(16, &mut self.yard, 1)
    }

    /// Gives one right of each cluster, to which one of the yard's is added.
    pub(crate) fn give_yard(&mut self, desks: &DeskSet, own: Share) -> Pack<N>
        requires own { desks.now ≡ N.desks }
        requires others { (n : ℕ) × (m : ℕ) × (self.old ≡ yard_amounts (n + 1) m) }
        requires right { StandsAt N.desks 16 own.desk × (own.amount ≡ 1) }
        ensures left { (n m : ℕ) → self.old ≡ yard_amounts (n + 1) m → self.new ≡ yard_amounts n m }
        ensures given { result ≡ one_each }
    {
        Pack {
            at0: desks.split(0, &mut self.at0, 1),
            at1: desks.split(2, &mut self.at1, 1),
            at2: desks.split(4, &mut self.at2, 1),
            at3: desks.split(6, &mut self.at3, 1),
            at4: desks.split(8, &mut self.at4, 1),
            at5: desks.split(10, &mut self.at5, 1),
            at6: desks.split(12, &mut self.at6, 1),
            at7: desks.split(14, &mut self.at7, 1),
            yard: own,
            run: PhantomData,
        }
    }

    /// Changes nothing. It tells that its rights of the yard and those that the yard's book has parked are at most the
    /// minted ones.
    pub(crate) fn count_yard(&mut self, desks: &DeskSet, book: &mut Book)
        requires own { desks.now ≡ N.desks }
        requires book { StandsAt N.desks 16 book.old.desk }
        ensures same { self.new ≡ self.old }
        ensures book { book.new ≡ book.old }
        ensures law { book.old.parked + self.old.yard ≤ book.old.minted }
    {
        let desk = desks.desk(16);
        let amount = self.yard.amount();
        let all = self.yard.split(desk, amount);
        book.take_in(desk, all);
        let all = book.give_out(desk, amount);
        self.yard.join(desk, all);
    }

    /// Its rights of the yard; the others go with it.
    pub(crate) fn into_yard(self) -> Share
        ensures desk { StandsAt N.desks 16 result.desk }
        ensures amount { result.amount ≡ self.yard }
    {
        let Pack {
            at0: _,
            at1: _,
            at2: _,
            at3: _,
            at4: _,
            at5: _,
            at6: _,
            at7: _,
            yard,
            run: _,
        } = self;
        yard
    }

    /// Takes the one right of a cluster out.
    pub(crate) fn take(&mut self, desks: &DeskSet, c: usize) -> Share
        requires own { desks.now ≡ N.desks }
        requires there { c < 8 }
        requires whole { self.old ≡ one_each }
        ensures left { self.new ≡ amounts_but c 0 1 }
        ensures desk { StandsAt N.desks (slot_desk c) result.desk }
        ensures one { result.amount ≡ 1 }
    {
        match c {
            0 => desks.split(0, &mut self.at0, 1),
            1 => desks.split(2, &mut self.at1, 1),
            2 => desks.split(4, &mut self.at2, 1),
            3 => desks.split(6, &mut self.at3, 1),
            4 => desks.split(8, &mut self.at4, 1),
            5 => desks.split(10, &mut self.at5, 1),
            6 => desks.split(12, &mut self.at6, 1),
            _ => desks.split(14, &mut self.at7, 1),
        }
    }

    /// Gives one right of each place but a cluster, to which one of that cluster's is added.
    pub(crate) fn give(&mut self, desks: &DeskSet, c: usize, own: Share) -> Pack<N>
        requires own { desks.now ≡ N.desks }
        requires there { c < 8 }
        requires others { AtLeastBut c self.old }
        requires right { StandsAt N.desks (slot_desk c) own.desk × (own.amount ≡ 1) }
        ensures left { (n : ℕ) → self.old ≡ amounts_but c 0 (n + 1) → self.new ≡ amounts_but c 0 n }
        ensures given { result ≡ one_each }
    {
        let mut given = Pack {
            at0: desks.split(0, &mut self.at0, one_but(c, 0)),
            at1: desks.split(2, &mut self.at1, one_but(c, 1)),
            at2: desks.split(4, &mut self.at2, one_but(c, 2)),
            at3: desks.split(6, &mut self.at3, one_but(c, 3)),
            at4: desks.split(8, &mut self.at4, one_but(c, 4)),
            at5: desks.split(10, &mut self.at5, one_but(c, 5)),
            at6: desks.split(12, &mut self.at6, one_but(c, 6)),
            at7: desks.split(14, &mut self.at7, one_but(c, 7)),
            yard: desks.split(16, &mut self.yard, 1),
            run: PhantomData,
        };
        given.put(desks, c, own);
        given
    }

    /// Adds the right of a cluster.
    pub(crate) fn put(&mut self, desks: &DeskSet, c: usize, own: Share)
        requires own { desks.now ≡ N.desks }
        requires there { c < 8 }
        requires others { self.old ≡ amounts_but c 0 1 }
        requires right { StandsAt N.desks (slot_desk c) own.desk × (own.amount ≡ 1) }
        ensures { self.new ≡ one_each }
    {
        match c {
            0 => desks.join(0, &mut self.at0, own),
            1 => desks.join(2, &mut self.at1, own),
            2 => desks.join(4, &mut self.at2, own),
            3 => desks.join(6, &mut self.at3, own),
            4 => desks.join(8, &mut self.at4, own),
            5 => desks.join(10, &mut self.at5, own),
            6 => desks.join(12, &mut self.at6, own),
            _ => desks.join(14, &mut self.at7, own),
        }
    }

    /// A pack of no rights; this one stays as it is.
    pub(crate) fn none(&mut self, desks: &DeskSet) -> Pack<N>
        requires own { desks.now ≡ N.desks }
        ensures same { self.new ≡ self.old }
        ensures none { result ≡ yard_amounts 0 0 }
    {
        Pack {
            at0: desks.split(0, &mut self.at0, 0),
            at1: desks.split(2, &mut self.at1, 0),
            at2: desks.split(4, &mut self.at2, 0),
            at3: desks.split(6, &mut self.at3, 0),
            at4: desks.split(8, &mut self.at4, 0),
            at5: desks.split(10, &mut self.at5, 0),
            at6: desks.split(12, &mut self.at6, 0),
            at7: desks.split(14, &mut self.at7, 0),
            yard: desks.split(16, &mut self.yard, 0),
            run: PhantomData,
        }
    }

    /// Takes in a share of the rights of a cluster.
    pub(crate) fn add(&mut self, desks: &DeskSet, c: usize, own: Share)
        requires own { desks.now ≡ N.desks }
        requires there { c < 8 }
        requires right { StandsAt N.desks (slot_desk c) own.desk }
        ensures { self.new ≡ with_more c own.amount self.old }
    {
        match c {
            0 => desks.join(0, &mut self.at0, own),
            1 => desks.join(2, &mut self.at1, own),
            2 => desks.join(4, &mut self.at2, own),
            3 => desks.join(6, &mut self.at3, own),
            4 => desks.join(8, &mut self.at4, own),
            5 => desks.join(10, &mut self.at5, own),
            6 => desks.join(12, &mut self.at6, own),
            _ => desks.join(14, &mut self.at7, own),
        }
    }
}

// One right, but none at one place.
fn one_but(c: usize, k: usize) -> u64
    ensures { result ≡ beside c k 0 1 }
{
    if k == c { 0 } else { 1 }
}
