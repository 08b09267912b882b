//! Tables of numbers.

ghost use Rattle.std.specs.Prelude.{◌≡◌, ◌<◌, All, [], length, replicate, slice_index, slice_index_or, slice_set};

use std::marker::Model;

/// A table of `R` rows of `C` numbers. Contracts see the list of its rows, each the list of its
/// numbers. It lies in place and takes no memory.
#[derive(Clone, Copy)]
pub struct Table<const R: usize, const C: usize> {
    rows: [[u64; C]; R],
}

impl<const R: usize, const C: usize> Model for Table<R, C> {
    ghost use Rattle.std.specs.Prelude.{◌≡◌, All, List, length, ℕ};

    ghost Value = { List (List ℕ) };

    ghost view = { λ table. table.rows };

    ghost invariant = { λ table. All (λ row. length row ≡ C) table.rows };

    ghost inverse = { λ rows. record { rows = rows } };
}

impl<const R: usize, const C: usize> Table<R, C> {
    /// A table with the number `v` everywhere.
    pub fn filled(v: u64) -> Table<R, C>
        ensures { result ≡ replicate R (replicate C v) }
    {
        Table { rows: [[v; C]; R] }
    }

    /// Does nothing. It tells a proof what every table keeps: it has `R` rows of `C` numbers.
    pub fn keeps_shape(&self)
        ensures rows { length self.now ≡ R }
        ensures columns { All (λ row. length row ≡ C) self.now }
    {
        let _rows = &self.rows;
    }

    /// The number in row `r` and column `c`, both counted from 0.
    pub fn get(&self, r: usize, c: usize) -> u64
        requires row { r < R }
        requires column { c < C }
        ensures { result ≡ slice_index (slice_index_or self.now r []) c }
    {
        self.rows[r][c]
    }

    /// Puts `v` in row `r` and column `c`, both counted from 0. The other numbers stay.
    pub fn set(&mut self, r: usize, c: usize, v: u64)
        requires row { r < R }
        requires column { c < C }
        ensures { self.new ≡ slice_set self.old r (slice_set (slice_index_or self.old r []) c v) }
    {
        self.rows[r][c] = v;
    }

    /// Puts a whole row in place of row `r`, counted from 0. The other rows stay.
    pub fn set_row(&mut self, r: usize, row: [u64; C])
        requires { r < R }
        ensures { self.new ≡ slice_set self.old r row.entry }
    {
        self.rows[r] = row;
    }
}
