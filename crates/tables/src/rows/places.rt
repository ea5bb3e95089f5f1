//! The records of a plain table, read and changed by place.
ghost use Rattle.std.specs.Prelude.{◌≡◌, ◌<◌, ◌≤◌, [], length, slice_index_or, slice_set};
ghost use Rattle.std.specs.List.{insert, remove};
ghost use Rattle.tables.specs.Rows.{rows};

use crate::rows::Rows;

impl<R: Copy, const N: usize> Rows<R, N> {
    /// No record; `blank` fills the cells.
    pub fn empty(blank: R) -> Self
        ensures { rows result ≡ [] }
    {
        Rows {
            cells: [blank; N],
            count: 0,
        }
    }

    /// How many records there are.
    pub fn len(&self) -> usize
        ensures count { result ≡ length (rows self.now) }
        ensures most { result ≤ N }
    {
        self.count
    }

    /// The records, in order.
    pub fn as_slice(&self) -> &[R]
        ensures { result.now ≡ rows self.now }
    {
        let cells = &self.cells[..];
        &cells[0..self.count]
    }

    /// The record at a place.
    pub fn at(&self, i: usize) -> R
        requires { i < length (rows self.now) }
        ensures { (d : R) → result ≡ slice_index_or (rows self.now) i d }
    {
        self.cells[i]
    }

    /// The table with `x` in the place of the record at `i`.
    pub fn put_at(self, i: usize, x: R) -> Self
        requires { i < length (rows self) }
        ensures { rows result ≡ slice_set (rows self) i x }
    {
        let mut cells = self.cells;
        cells[i] = x;
        Rows {
            cells,
            count: self.count,
        }
    }

    /// The table with `x` at `place`, and the records from there on one place further.
    pub(crate) fn insert_at(self, place: usize, x: R) -> Self
        requires room { length (rows self) < N }
        requires within { place ≤ length (rows self) }
        ensures { rows result ≡ insert (rows self) place x }
    {
        let mut cells = self.cells;
        // up to the first cell that is no record yet; a part of an array of `N` is not lent in one step
        let all = &mut cells[..];
        all[place..self.count + 1].rotate_right(1);
        all[place] = x;
        Rows {
            cells,
            count: self.count + 1,
        }
    }

    /// The table without the record at `place`.
    pub(crate) fn remove_at(self, place: usize) -> Self
        requires { place < length (rows self) }
        ensures { rows result ≡ remove (rows self) place }
    {
        let mut cells = self.cells;
        let all = &mut cells[..];
        all[place..self.count].rotate_left(1);
        Rows {
            cells,
            count: self.count - 1,
        }
    }
}
