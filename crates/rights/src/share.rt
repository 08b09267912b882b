//! A share of the rights of a desk.
ghost use Rattle.std.specs.Prelude.{◌≡◌, ◌+◌, ◌-◌, ◌<◌, ◌≤◌, ◌^◌};
ghost use Rattle.rights.specs.Rule.{share};

use crate::desk::Desk;
use crate::token::Token;
use std::marker::Model;

/// Some minted rights of a desk that aren't parked. One that is dropped takes its rights with it: they stay minted,
/// and nobody has them.
#[derive(Drop)]
pub struct Share {
    amount: u64,
    token: Token,
}

impl Model for Share {
    ghost use Rattle.std.specs.Prelude.{◌≡◌};
    ghost use Rattle.rights.specs.Values.{Holding};
    ghost use Rattle.rights.specs.Rule.{share};

    ghost Value = { Holding };

    ghost view = { λ s. record { desk = s.token.desk; amount = s.amount } };

    ghost invariant = { λ s. s.token.view ≡ share s.amount };
}

impl Share {
    pub(crate) fn of(token: Token, amount: u64) -> Share
        requires { token.view ≡ share amount }
        ensures { result ≡ record { desk = token.desk; amount = amount } }
    {
        Share { amount, token }
    }

    pub(crate) fn into_token(self) -> Token
        ensures { result ≡ record { desk = self.desk; view = share self.amount } }
    {
        let Share { amount: _, token } = self;
        token
    }

    /// How many rights it has.
    pub fn amount(&self) -> u64
        ensures { result ≡ self.now.amount }
    {
        self.amount
    }

    /// Takes in the rights of another share of the same desk. Together they are below 2^63.
    pub fn join(&mut self, desk: &Desk, s: Share)
        requires own { (self.old.desk ≡ desk.now) × (s.desk ≡ desk.now) }
        ensures joined { self.new ≡ record self.old { amount = self.old.amount + s.amount } }
        ensures bound { self.old.amount + s.amount < 2 ^ 63 }
    {
        let amount = s.amount();
        desk.join(&mut self.token, s.into_token());
        self.amount += amount;
    }

    /// Cuts `n` of its rights off, as a share of their own.
    pub fn split(&mut self, desk: &Desk, n: u64) -> Share
        requires own { self.old.desk ≡ desk.now }
        requires enough { n ≤ self.old.amount }
        ensures kept { self.new ≡ record self.old { amount = self.old.amount - n } }
        ensures given { result ≡ record { desk = self.old.desk; amount = n } }
    {
        self.amount -= n;
        Share::of(desk.split(&mut self.token, n), n)
    }
}
