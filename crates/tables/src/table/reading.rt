//! Reading a table. Its type says that it is in order and in range, so nothing is tested here.
ghost use Rattle.std.specs.Prelude.{◌≡◌, ◌≤◌, [], length, MatchResult};
ghost use Rattle.tables.specs.Keys.{found, Holds, Lacks};
ghost use Rattle.tables.specs.Table.{listed};

use crate::keyed::Keyed;
use crate::rows::Rows;
use crate::table::Table;

impl<R: Keyed + Default, const N: usize> Table<R, N> {
    /// No record.
    pub fn new() -> Self
        ensures { listed result ≡ [] }
    {
        Table {
            rows: Rows::empty(R::default()),
        }
    }
}

impl<R: Keyed, const N: usize> Table<R, N> {
    /// No record; `blank` fills the cells, for a kind of record that has no default.
    pub fn empty(blank: R) -> Self
        ensures { listed result ≡ [] }
    {
        let rows = Rows::empty(blank);
        Self { rows }
    }

    /// How many records there are.
    pub fn len(&self) -> usize
        ensures count { result ≡ length (listed self.now) }
        ensures most { result ≤ N }
    {
        self.rows.len()
    }

    /// The records, least key first.
    pub fn as_slice(&self) -> &[R]
        ensures { result.now ≡ listed self.now }
    {
        self.rows.as_slice()
    }

    /// The place of the record at the key `k`, or else the place where one would stand.
    pub fn seek(&self, k: u32) -> Result<usize, usize>
        ensures { MatchResult result (λ i. Holds R.key (listed self.now) k i) (λ i. Lacks R.key (listed self.now) k i) }
    {
        self.as_slice().binary_search_by_key(&k, |x| x.key())
    }

    /// The record at the key `k`, if there is one.
    pub fn find(&self, k: u32) -> Option<R>
        ensures { result ≡ found R.key (listed self.now) k }
    {
        let i = self.seek(k).ok()?;
        Some(self.rows.at(i))
    }
}
