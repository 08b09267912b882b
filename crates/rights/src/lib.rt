//! Rights, counted: a book mints them, shares carry them from thread to thread, and a desk that all threads share
//! keeps the one rule, that no more are held than were minted.
//!
//! Rights are minted, shared out, and parked (a caller in the tests):
//!
//! ```
//! let (desk, mut book) = Desk::new(rt.alloc())?;
//! let mut share = book.mint(&desk, 5);
//! let two = share.split(&desk, 2);
//! book.take_in(&desk, two); // `book.parked()` is 2, and `share.amount()` 3
//! book.burn(&desk, share);
//! ```
#![tactic(auto)]

mod book;
mod desk;
mod share;
mod token;
mod view;

pub use book::Book;
pub use desk::Desk;
pub use share::Share;

#[cfg(test)]
mod tests;

// What crosses threads: a book, a share and a reference to a desk.
trait Crosses: Send {}

impl Crosses for Book {}

impl Crosses for Share {}

impl<'a> Crosses for &'a Desk {}
