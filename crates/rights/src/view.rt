//! What a token knows, the rule over what all tokens of a desk know, and the five kinds of step.
use atomic_table::{Join, Play, Split, TableRule};
use std::marker::{Brand, PhantomData};

/// What one token of a desk knows. No value of it is made.
pub enum View {
    /// The book's own: the rights minted, and those of them that lie with the book.
    Own { minted: u64, amount: u64 },
    /// A share's.
    Part { amount: u64 },
}

/// How many rights a step moves. Each call picks it.
pub trait Count {
    ghost use Rattle.std.specs.Prelude.{ℕ};

    ghost count: { ℕ };
}

impl Count for Brand {
    ghost count = { 0 };
}

pub struct Rights;

impl TableRule<(), View, ()> for Rights {
    ghost use Rattle.rights.specs.Rule.{IsKept, own};

    ghost holds = { λ _. IsKept };

    ghost first = { λ _. own 0 0 };
}

/// Rights come into being, and lie with the book.
pub struct Mints<N> {
    count: PhantomData<N>,
}

impl<N: Count> Play<(), View> for Mints<N> {
    ghost use Rattle.rights.specs.Rule.{Becomes, minted_more};

    ghost then = { Becomes (minted_more N.count) };
}

/// Rights that lie with the book end.
pub struct Burns<N> {
    count: PhantomData<N>,
}

impl<N: Count> Play<(), View> for Burns<N> {
    ghost use Rattle.rights.specs.Rule.{Becomes, minted_less};

    ghost then = { Becomes (minted_less N.count) };
}

/// Nothing changes, and the token is told what the rule says of it.
pub struct Confirms;

impl Play<(), View> for Confirms {
    ghost use Rattle.rights.specs.Rule.{IsConfirmed};

    ghost then = { IsConfirmed };
}

/// Some rights go to a new share.
pub struct Parts<N> {
    count: PhantomData<N>,
}

impl<N: Count> Split<View> for Parts<N> {
    ghost use Rattle.rights.specs.Rule.{less, share};

    ghost left = { less N.count };

    ghost right = { λ _. share N.count };
}

/// A share's rights go to another token, and the share is spent.
pub struct Joins;

impl Join<View> for Joins {
    ghost use Rattle.rights.specs.Rule.{more, share, amount_of};

    ghost both = { λ v w. more (amount_of w) v };

    ghost spent = { share 0 };
}
