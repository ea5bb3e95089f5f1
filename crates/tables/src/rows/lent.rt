//! One record of a plain table, lent out of its cell. Any record may come back in its place.
ghost use Rattle.std.specs.Prelude.{◌≡◌, ◌<◌, slice_index_or};
ghost use Rattle.std.specs.Borrow.{sem, follows};
ghost use Rattle.tables.specs.Lending.{with_cell};
ghost use Rattle.tables.specs.contracts.rows.Rows.{the_row};

use crate::rows::Rows;

impl<R, const N: usize> Rows<R, N> {
    /// Lends the record at a place, which may lie past the count. The table ends as it was, with the last value behind the result
    /// in that place.
    pub fn record_at(&mut self, i: usize) -> &mut R
        requires { i < N }
        ensures* follows { sem 𝓛 (follows (the_row R.row N.row) R.row self.entry.ghost_name result.ghost_name (with_cell self.old i)) }
        ensures value { result.now ≡ slice_index_or self.old.cells i result.now }
    {
        &mut self.cells[i]
    }
}
