ghost use Rattle.std.specs.Prelude.{◌≡◌, ◌+◌, Bool};
ghost use Rattle.pairing_heap.specs.Order.{IsStrictOrder};

use crate::Steps;
use std::sync::ledger::Ledger;

/// A key by which a heap is ordered.
pub trait HeapKey: Drop {
    ghost precedes: { Self → Self → Bool };

    ghost order: { IsStrictOrder precedes };
}

/// A key whose comparisons are counted by the ledger `L`. Code that is generic in `L` can compare such keys only by the
/// counter that it is handed.
pub trait Counted<L: Ledger>: HeapKey {
    /// Whether `self` precedes `other`. Each call counts one comparison.
    fn before(&self, other: &Self, steps: &mut Steps<L>) -> bool
        ensures answer { result ≡ Self.precedes self.now other.now }
        ensures tick { steps.new ≡ steps.old + 1 };
}

/// A value that has a key for the link set `K`.
pub trait Keyed<const K: usize> {
    type Key: HeapKey;

    ghost key_of: { Self → Self.Key };

    /// The value's key.
    fn key(&self) -> Self::Key
        ensures { result ≡ key_of self.now };
}

/// A key whose comparisons can be counted by any ledger, so that it is `Counted` by each. Code that has a key by this bound can
/// choose who counts; code that has it by `Counted` alone can not.
pub trait Tallied: HeapKey {
    /// Whether `self` precedes `other`. Each call counts one comparison.
    fn before_by<L: Ledger>(&self, other: &Self, steps: &mut Steps<L>) -> bool
        ensures answer { result ≡ Self.precedes self.now other.now }
        ensures tick { steps.new ≡ steps.old + 1 };
}

impl<L: Ledger, X: Tallied> Counted<L> for X {
    fn before(&self, other: &Self, steps: &mut Steps<L>) -> bool {
        self.before_by::<L>(other, steps)
    }
}
