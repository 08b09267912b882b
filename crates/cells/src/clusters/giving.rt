//! The held clusters of a run get room, and mint rights.
ghost use Rattle.std.specs.Prelude.{◌≡◌, ◌<◌, ◌≤◌, ◌+◌, ◌^◌, None, is_some, map, true};
ghost use Rattle.cells.specs.Desks.{StandsAt, line_desk, slot_desk, yard_line_desk};
ghost use Rattle.cells.specs.Making.{AreBut, AreIn, HasFewer, HasFree, HasSpare, HasStock, IsBut, IsIn, lines_in, lines_of, stock_after, stock_left, with_free, with_lines, with_slot, with_spare};

use super::Clusters;
use crate::desk_set::DeskSet;
use crate::held_cluster::HeldCluster;
use crate::lines::Lines;
use crate::pack::Pack;
use crate::rider::Slots;
use crate::run_name::RunName;
use flat_policy::cluster::Cluster;
use rights::Share;

impl<K: Cluster, N: RunName> Clusters<K, N> {
    /// Makes the free room of each held cluster so great that `n` line rights more may be minted. It tells whether there was
    /// memory; otherwise some have more room.
    pub(crate) fn reserve_lines(&mut self, n: u64) -> bool
        requires { n < 2 ^ 40 }
        ensures but { AreBut with_free self.old self.new }
        ensures filled { map is_some self.new ≡ map is_some self.old }
        ensures room { result ≡ true → AreIn (HasFree n) self.new }
    {
        let fine = reserve_lines_in(&mut self.at0, true, n);
        let fine = reserve_lines_in(&mut self.at1, fine, n);
        let fine = reserve_lines_in(&mut self.at2, fine, n);
        let fine = reserve_lines_in(&mut self.at3, fine, n);
        let fine = reserve_lines_in(&mut self.at4, fine, n);
        let fine = reserve_lines_in(&mut self.at5, fine, n);
        let fine = reserve_lines_in(&mut self.at6, fine, n);
        reserve_lines_in(&mut self.at7, fine, n)
    }

    /// Mints `n` line rights of each held cluster, and puts those of the yard to them. `none` has the shares of the places that
    /// aren't filled.
    pub(crate) fn mint_lines(
        &mut self,
        desks: &DeskSet,
        n: u64,
        none: &mut Lines<N>,
        yard: Share,
    ) -> Lines<N>
        requires desks { desks.now ≡ N.desks }
        requires room { AreIn (HasFree n) self.old }
        requires yard { StandsAt N.desks yard_line_desk yard.desk × (yard.amount ≡ n) }
        ensures but { AreBut (λ _. with_lines n) self.old self.new }
        ensures filled { map is_some self.new ≡ map is_some self.old }
        ensures none { none.new ≡ none.old }
        ensures lines { result ≡ lines_of n self.old }
    {
        let line0 = mint_lines_in(&mut self.at0, desks, n, &mut none.line0);
        let line1 = mint_lines_in(&mut self.at1, desks, n, &mut none.line1);
        let line2 = mint_lines_in(&mut self.at2, desks, n, &mut none.line2);
        let line3 = mint_lines_in(&mut self.at3, desks, n, &mut none.line3);
        let line4 = mint_lines_in(&mut self.at4, desks, n, &mut none.line4);
        let line5 = mint_lines_in(&mut self.at5, desks, n, &mut none.line5);
        let line6 = mint_lines_in(&mut self.at6, desks, n, &mut none.line6);
        let line7 = mint_lines_in(&mut self.at7, desks, n, &mut none.line7);
        Lines::of(line0, line1, line2, line3, line4, line5, line6, line7, yard)
    }

    /// Makes room in each held cluster for one thread more than slot rights are out. It tells whether there was memory; otherwise
    /// some have more room.
    pub(crate) fn reserve_slots(&mut self) -> bool
        ensures but { AreBut with_spare self.old self.new }
        ensures filled { map is_some self.new ≡ map is_some self.old }
        ensures room { result ≡ true → AreIn HasSpare self.new }
    {
        let fine = reserve_slot_in(&mut self.at0, true);
        let fine = reserve_slot_in(&mut self.at1, fine);
        let fine = reserve_slot_in(&mut self.at2, fine);
        let fine = reserve_slot_in(&mut self.at3, fine);
        let fine = reserve_slot_in(&mut self.at4, fine);
        let fine = reserve_slot_in(&mut self.at5, fine);
        let fine = reserve_slot_in(&mut self.at6, fine);
        reserve_slot_in(&mut self.at7, fine)
    }

    /// Mints one slot right of each held cluster, and gives one of the stock for each place that isn't filled.
    pub(crate) fn mint_slots(&mut self, desks: &DeskSet, stock: &mut Pack<N>) -> Slots<N>
        requires desks { desks.now ≡ N.desks }
        requires room { AreIn HasSpare self.old }
        requires few { AreIn HasFewer self.old }
        requires stock { HasStock self.old stock.old }
        ensures but { AreBut (λ _. with_slot) self.old self.new }
        ensures filled { map is_some self.new ≡ map is_some self.old }
        ensures stock { stock.new ≡ stock_after self.old stock.old }
    {
        let at0 = mint_slot_in(&mut self.at0, desks, &mut stock.at0);
        let at1 = mint_slot_in(&mut self.at1, desks, &mut stock.at1);
        let at2 = mint_slot_in(&mut self.at2, desks, &mut stock.at2);
        let at3 = mint_slot_in(&mut self.at3, desks, &mut stock.at3);
        let at4 = mint_slot_in(&mut self.at4, desks, &mut stock.at4);
        let at5 = mint_slot_in(&mut self.at5, desks, &mut stock.at5);
        let at6 = mint_slot_in(&mut self.at6, desks, &mut stock.at6);
        let at7 = mint_slot_in(&mut self.at7, desks, &mut stock.at7);
        let none = desks.split(16, &mut stock.yard, 0);
        Slots::of(Pack::of(at0, at1, at2, at3, at4, at5, at6, at7, none))
    }
}

// Makes the free room of the held cluster of a place so great that `n` line rights more may be minted, where all before went
// fine. It tells whether all did so far.
fn reserve_lines_in<K: Cluster, N: RunName, const C: usize>(
    place: &mut Option<HeldCluster<K, N, C>>,
    fine: bool,
    n: u64,
) -> bool
    requires { n < 2 ^ 40 }
    ensures but { IsBut with_free place.old place.new }
    ensures before { result ≡ true → fine ≡ true }
    ensures room { result ≡ true → IsIn (HasFree n) place.new }
{
    match place {
        Some(held) => fine && held.reserve_lines(n).is_ok(),
        None => fine,
    }
}

// Mints `n` line rights of the held cluster of a place. Where there is none, it gives a share of no rights.
fn mint_lines_in<K: Cluster, N: RunName, const C: usize>(
    place: &mut Option<HeldCluster<K, N, C>>,
    desks: &DeskSet,
    n: u64,
    none: &mut Share,
) -> Share
    requires desks { desks.now ≡ N.desks }
    requires there { C < 8 }
    requires room { IsIn (HasFree n) place.old }
    requires none { StandsAt N.desks (line_desk C) none.old.desk }
    ensures but { IsBut (λ _. with_lines n) place.old place.new }
    ensures none { none.new ≡ none.old }
    ensures desk { StandsAt N.desks (line_desk C) result.desk }
    ensures amount { result.amount ≡ lines_in n place.old }
{
    match place {
        Some(held) => held.mint_lines(desks, n),
        None => desks.split(2 * C + 1, none, 0),
    }
}

// Makes room in the held cluster of a place for one thread more than slot rights are out, where all before went fine. It tells
// whether all did so far.
fn reserve_slot_in<K: Cluster, N: RunName, const C: usize>(
    place: &mut Option<HeldCluster<K, N, C>>,
    fine: bool,
) -> bool
    ensures but { IsBut with_spare place.old place.new }
    ensures before { result ≡ true → fine ≡ true }
    ensures room { result ≡ true → IsIn HasSpare place.new }
{
    match place {
        Some(held) => {
            held.keeps();
            fine && held.reserve_slot().is_ok()
        }
        None => fine,
    }
}

// Mints one slot right of the held cluster of a place. Where there is none, it is split off those that lie ready.
fn mint_slot_in<K: Cluster, N: RunName, const C: usize>(
    place: &mut Option<HeldCluster<K, N, C>>,
    desks: &DeskSet,
    stock: &mut Share,
) -> Share
    requires desks { desks.now ≡ N.desks }
    requires there { C < 8 }
    requires room { IsIn HasSpare place.old }
    requires few { IsIn HasFewer place.old }
    requires desk { StandsAt N.desks (slot_desk C) stock.old.desk }
    requires some { place.old ≡ None → 1 ≤ stock.old.amount }
    ensures but { IsBut (λ _. with_slot) place.old place.new }
    ensures stock { stock.new ≡ record stock.old { amount = stock_left place.old stock.old.amount } }
    ensures desk { StandsAt N.desks (slot_desk C) result.desk }
    ensures one { result.amount ≡ 1 }
{
    match place {
        Some(held) => held.mint_slot(desks),
        None => desks.split(2 * C, stock, 1),
    }
}
