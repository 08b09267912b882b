//! The desks of a run.
ghost use Rattle.std.specs.Prelude.{◌≡◌, ◌+◌, ◌-◌, ◌<◌, ◌≤◌, IfNone, IfOk, IfSome, length, map};
ghost use Rattle.cells.specs.Desks.{AreFresh, StandsAt, desk_count, fresh_book};

use rights::{Book, Desk, Share};
use std::alloc::{AllocError, Global};
use std::marker::Model;

/// How many desks there are.
const DESKS: usize = 18;

/// 18 desks: numbers 2 * c and 2 * c + 1 are the slots and the lines of cluster c, and 16 and 17 those of the yard.
/// It has no rule of its own: each desk keeps the one of `rights`.
#[derive(Drop)]
pub struct DeskSet {
    desks: Vec<Desk>,
}

impl Model for DeskSet {
    ghost use Rattle.std.specs.Prelude.{◌≡◌, List, length};
    ghost use Rattle.rights.specs.Values.{DeskId};
    ghost use Rattle.cells.specs.Desks.{desk_count};

    ghost Value = { List DeskId };

    ghost view = { λ d. d.desks.items };

    ghost invariant = { λ d. length d.desks.items ≡ desk_count };
}

impl DeskSet {
    /// New desks and their books, with nothing minted and nothing parked. `AllocError` is want of memory.
    pub fn new(alloc: Global) -> Result<(DeskSet, Vec<Book>), AllocError>
        ensures count { IfOk result (λ made. length made.0 ≡ desk_count) }
        ensures books { IfOk result (λ made. made.1.items ≡ map fresh_book made.0) }
    {
        let mut desks = Vec::new(alloc);
        let mut books = Vec::new(alloc);
        for _ in 0..DESKS {
            let (desk, book) = Desk::new(alloc)?;
            desks.push(desk)?;
            books.push(book)?;
        }
        Ok((DeskSet { desks }, books))
    }

    /// The desk of a number.
    pub(crate) fn desk(&self, k: usize) -> &Desk
        requires { k < desk_count }
        ensures { StandsAt self.now k result.now }
    {
        &self.desks[k]
    }

    /// Joins a share to another of the same desk.
    pub(crate) fn join(&self, k: usize, mine: &mut Share, other: Share)
        requires number { k < desk_count }
        requires mine { StandsAt self.now k mine.old.desk }
        requires other { StandsAt self.now k other.desk }
        ensures { mine.new ≡ record mine.old { amount = mine.old.amount + other.amount } }
    {
        mine.join(self.desk(k), other);
    }

    /// Cuts some rights off a share.
    pub(crate) fn split(&self, k: usize, mine: &mut Share, n: u64) -> Share
        requires number { k < desk_count }
        requires mine { StandsAt self.now k mine.old.desk }
        requires enough { n ≤ mine.old.amount }
        ensures kept { mine.new ≡ record mine.old { amount = mine.old.amount - n } }
        ensures given { result ≡ record { desk = mine.old.desk; amount = n } }
    {
        mine.split(self.desk(k), n)
    }

    /// Takes the last of the fresh books of the first desks, where there is one.
    pub(crate) fn last_book(&self, books: &mut Vec<Book>) -> Book
        requires fresh { AreFresh self.now books.old.items }
        requires some { 0 < length books.old.items }
        ensures fresh { AreFresh self.now books.new.items }
        ensures len { length books.new.items + 1 ≡ length books.old.items }
        ensures desk { StandsAt self.now (length books.new.items) result.desk }
        ensures book { result ≡ fresh_book result.desk }
    {
        match self.take_last(books) {
            Some(book) => book,
            None => unreachable!(),
        }
    }

    /// Takes the last of the fresh books of the first desks.
    fn take_last(&self, books: &mut Vec<Book>) -> Option<Book>
        requires fresh { AreFresh self.now books.old.items }
        ensures fresh { AreFresh self.now books.new.items }
        ensures none { IfNone result (length books.old.items ≡ 0) }
        ensures len { IfSome result (λ _. length books.new.items + 1 ≡ length books.old.items) }
        ensures desk { IfSome result (λ b. StandsAt self.now (length books.new.items) b.desk) }
        ensures book { IfSome result (λ b. b ≡ fresh_book b.desk) }
    {
        books.pop()
    }
}
