//! A token is a seat at a desk. Each step of a token is one load of the desk's word, which waits for nobody.
ghost use Rattle.std.specs.Prelude.{◌≡◌, ◌≤◌};
ghost use Rattle.rights.specs.Rule.{more, less, share, books_of, amount_of, minted_more, minted_less, MayMint, MayBurn, IsCovered};

use crate::desk::Desk;
use crate::view::{Burns, Confirms, Count, Joins, Mints, Parts, View};
use atomic_table::Seat;
use std::marker::{Brand, Model};

/// A seat that holds no slot. Contracts see which desk it is of, and what it knows.
#[derive(Drop)]
pub struct Token {
    pub(crate) seat: Seat<(), View>,
}

impl Model for Token {
    ghost use Rattle.std.specs.Prelude.{◌≡◌, []};
    ghost use Rattle.rights.specs.Values.{Insight};

    ghost Value = { Insight };

    ghost view = { λ t. record { desk = t.seat.table_id; view = t.seat.me.0 } };

    ghost invariant = { λ t. t.seat.me.1 ≡ [] };
}

impl Desk {
    /// Mints `n` rights, which lie with the book.
    pub(crate) fn mint(&self, book: &mut Token, n: u64)
        requires own { book.old.desk ≡ self.now }
        requires room { MayMint n book.old.view }
        ensures { book.new ≡ record book.old { view = minted_more n book.old.view } }
    {
        self.mint_by::<Brand>(book, n);
    }

    /// Ends `n` rights that lie with the book.
    pub(crate) fn burn(&self, book: &mut Token, n: u64)
        requires own { book.old.desk ≡ self.now }
        requires enough { MayBurn n book.old.view }
        ensures { book.new ≡ record book.old { view = minted_less n book.old.view } }
    {
        self.burn_by::<Brand>(book, n);
    }

    /// Cuts `n` rights off, as a share.
    pub(crate) fn split(&self, token: &mut Token, n: u64) -> Token
        requires own { token.old.desk ≡ self.now }
        requires enough { n ≤ amount_of token.old.view }
        ensures kept { token.new ≡ record token.old { view = less n token.old.view } }
        ensures given { result ≡ record token.old { view = share n } }
    {
        self.split_by::<Brand>(token, n)
    }

    /// Takes in the rights of a share, and is told what the rule says of both together.
    pub(crate) fn join(&self, token: &mut Token, other: Token)
        requires own { (token.old.desk ≡ self.now) × (other.desk ≡ self.now) }
        requires share { books_of other.view ≡ 0 }
        ensures taken { token.new ≡ record token.old { view = more (amount_of other.view) token.old.view } }
        ensures told { IsCovered token.new.view }
    {
        let Token { seat } = other;
        self.table.shared.join_seat::<Joins>(&mut token.seat, seat);
        self.confirm(token);
    }

    // Tells the token what the rule says of it.
    fn confirm(&self, token: &mut Token)
        requires own { token.old.desk ≡ self.now }
        ensures same { token.new ≡ token.old }
        ensures told { IsCovered token.old.view }
    {
        self.table.shared.load::<Confirms>(&mut token.seat, 0);
    }

    fn mint_by<N: Count>(&self, book: &mut Token, n: u64)
        requires own { book.old.desk ≡ self.now }
        requires room { MayMint n book.old.view }
        requires count { n ≡ N.count }
        ensures { book.new ≡ record book.old { view = minted_more n book.old.view } }
    {
        let _ = n;
        self.table.shared.load::<Mints<N>>(&mut book.seat, 0);
    }

    fn burn_by<N: Count>(&self, book: &mut Token, n: u64)
        requires own { book.old.desk ≡ self.now }
        requires enough { MayBurn n book.old.view }
        requires count { n ≡ N.count }
        ensures { book.new ≡ record book.old { view = minted_less n book.old.view } }
    {
        let _ = n;
        self.table.shared.load::<Burns<N>>(&mut book.seat, 0);
    }

    fn split_by<N: Count>(&self, token: &mut Token, n: u64) -> Token
        requires own { token.old.desk ≡ self.now }
        requires enough { n ≤ amount_of token.old.view }
        requires count { n ≡ N.count }
        ensures kept { token.new ≡ record token.old { view = less n token.old.view } }
        ensures given { result ≡ record token.old { view = share n } }
    {
        let _ = n;
        Token {
            seat: self.table.shared.split_seat::<Parts<N>>(&mut token.seat),
        }
    }
}
