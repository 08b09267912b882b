//! The book of a desk.
ghost use Rattle.std.specs.Prelude.{◌≡◌, ◌+◌, ◌-◌, ◌<◌, ◌≤◌, ◌^◌};
ghost use Rattle.rights.specs.Rule.{own};

use crate::desk::Desk;
use crate::share::Share;
use crate::token::Token;
use std::marker::Model;

/// Counts the rights of its desk: how many are minted, and how many of those are parked with it. The others are out
/// as shares. Never more are parked than minted, and fewer than 2^63 are minted.
#[derive(Drop)]
pub struct Book {
    minted: u64,
    parked: u64,
    token: Token,
}

impl Model for Book {
    ghost use Rattle.std.specs.Prelude.{◌≡◌, ◌≤◌, ◌<◌, ◌^◌};
    ghost use Rattle.rights.specs.Values.{Account};
    ghost use Rattle.rights.specs.Rule.{own};

    ghost Value = { Account };

    ghost view = { λ b. record { desk = b.token.desk; minted = b.minted; parked = b.parked } };

    ghost invariant = { λ b. (b.token.view ≡ own b.minted b.parked) × (b.parked ≤ b.minted) × (b.minted < 2 ^ 63) };
}

impl Book {
    pub(crate) fn of(token: Token) -> Book
        requires { token.view ≡ own 0 0 }
        ensures { result ≡ record { desk = token.desk; minted = 0; parked = 0 } }
    {
        Book {
            minted: 0,
            parked: 0,
            token,
        }
    }

    /// How many rights of its desk are minted and not burnt.
    pub fn minted(&self) -> u64
        ensures value { result ≡ self.now.minted }
        ensures bound { self.now.minted < 2 ^ 63 }
        ensures law { self.now.parked ≤ self.now.minted }
    {
        self.minted
    }

    /// How many of the minted rights are parked with it.
    pub fn parked(&self) -> u64
        ensures value { result ≡ self.now.parked }
        ensures law { self.now.parked ≤ self.now.minted }
    {
        self.parked
    }

    /// Mints `n` rights, and gives them out as a share.
    pub fn mint(&mut self, desk: &Desk, n: u64) -> Share
        requires own { self.old.desk ≡ desk.now }
        requires room { self.old.minted + n < 2 ^ 63 }
        ensures book { self.new ≡ record self.old { minted = self.old.minted + n } }
        ensures share { result ≡ record { desk = self.old.desk; amount = n } }
    {
        desk.mint(&mut self.token, n);
        self.minted += n;
        Share::of(desk.split(&mut self.token, n), n)
    }

    /// Parks the rights of a share. With those parked before, they were at most the minted ones.
    pub fn take_in(&mut self, desk: &Desk, s: Share)
        requires own { (self.old.desk ≡ desk.now) × (s.desk ≡ desk.now) }
        ensures book { self.new ≡ record self.old { parked = self.old.parked + s.amount } }
        ensures law { self.old.parked + s.amount ≤ self.old.minted }
    {
        let amount = s.amount();
        desk.join(&mut self.token, s.into_token());
        self.parked += amount;
    }

    /// Gives `n` of the parked rights out as a share.
    pub fn give_out(&mut self, desk: &Desk, n: u64) -> Share
        requires own { self.old.desk ≡ desk.now }
        requires enough { n ≤ self.old.parked }
        ensures book { self.new ≡ record self.old { parked = self.old.parked - n } }
        ensures share { result ≡ record { desk = self.old.desk; amount = n } }
    {
        self.parked -= n;
        Share::of(desk.split(&mut self.token, n), n)
    }

    /// Ends the rights of a share. With the parked ones, they were at most the minted ones.
    pub fn burn(&mut self, desk: &Desk, s: Share)
        requires own { (self.old.desk ≡ desk.now) × (s.desk ≡ desk.now) }
        ensures book { self.new ≡ record self.old { minted = self.old.minted - s.amount } }
        ensures law { self.old.parked + s.amount ≤ self.old.minted }
    {
        let amount = s.amount();
        desk.join(&mut self.token, s.into_token());
        desk.burn(&mut self.token, amount);
        self.minted -= amount;
    }
}
