//! The desk, which all threads share.
ghost use Rattle.std.specs.Prelude.{◌≡◌, IfOk};

use crate::book::Book;
use crate::token::Token;
use crate::view::{Rights, View};
use atomic_table::Table;
use std::alloc::{AllocError, Global};
use std::marker::Model;

/// What ties a book to its shares: one word that stays 0. Threads share it by reference, and contracts see which
/// desk it is.
#[derive(Drop)]
pub struct Desk {
    pub(crate) table: Table<(), View, (), Rights, Global>,
}

impl Model for Desk {
    ghost use Rattle.std.specs.Prelude.{◌≡◌};
    ghost use Rattle.rights.specs.Values.{DeskId};

    ghost Value = { DeskId };

    ghost view = { λ d. d.table.shared.table_id };

    ghost invariant = { λ d. d.table.shared.table_id.words ≡ 1 };
}

impl Desk {
    /// A new desk, and its book, with nothing minted and nothing parked. It is the one call here that takes memory:
    /// `AllocError` means that there was none.
    pub fn new(alloc: Global) -> Result<(Desk, Book), AllocError>
        ensures { IfOk result (λ made. made.1 ≡ record { desk = made.0; minted = 0; parked = 0 }) }
    {
        let (table, seat) = Table::of_words(alloc, &[0], &())?;
        Ok((Desk { table }, Book::of(Token { seat })))
    }
}
