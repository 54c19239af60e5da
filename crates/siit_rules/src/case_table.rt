//! Tables of cases.
ghost use Rattle.std.specs.Prelude.{◌≡◌, IsTrue};
ghost use Rattle.siit_rules.specs.Cases.{keys_increase, value_at};

use std::marker::Model;

/// Writes a table of cases: each value stands behind the keys that have it, and each key is above the one before.
#[macro_export]
macro_rules! cases {
    ($($($key:expr),+ => $value:expr;)*) => {
        $crate::CaseTable::new([$($(($key, $value)),+),*])
    };
}

/// A table of cases, in the order of their keys. Contracts see it as the list of its rows.
#[derive(Drop)]
pub struct CaseTable<const N: usize> {
    rows: [(u16, u16); N],
}

impl<const N: usize> Model for CaseTable<N> {
    ghost use Rattle.std.specs.Prelude.{List, ℕ, IsTrue};
    ghost use Rattle.siit_rules.specs.Cases.{keys_increase};

    ghost Value = { List (ℕ × ℕ) };

    ghost view = { λ table. table.rows };

    ghost invariant = { λ table. IsTrue (keys_increase table.rows) };
}

impl<const N: usize> CaseTable<N> {
    /// The table of rows of a key and a value. Each key is above the one before.
    pub fn new(rows: [(u16, u16); N]) -> CaseTable<N>
        requires keys { IsTrue (keys_increase rows) }
        ensures rows { result ≡ rows.entry }
    {
        CaseTable { rows }
    }

    /// The value of the row with this key, None where no row has it.
    pub fn find(&self, key: u16) -> Option<u16>
        ensures { result ≡ value_at self.now key }
    {
        match self.rows.binary_search_by_key(&key, |row| row.0) {
            Ok(place) => Some(self.rows[place].1),
            Err(_) => None,
        }
    }
}
