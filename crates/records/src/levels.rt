//! The table of levels: at most 64, by height.
ghost use Rattle.std.specs.Prelude.{◌≡◌, ◌≤◌, length, sum_by};
ghost use Rattle.tables.specs.Table.{listed};
ghost use Rattle.records.specs.Level.{weight_of};

use crate::level::Level;
use tables::table::Table;

/// The levels of a building, by height.
pub type Levels = Table<Level, 64>;

/// The sum of the levels' weights.
pub fn total_weight(levels: &Levels) -> u32
    ensures sum { result ≡ sum_by weight_of (listed levels.now) }
    ensures least { length (listed levels.now) ≤ result }
    ensures most { result ≤ 3840000 }
{
    levels.as_slice().iter().map(|level| level.weight).sum()
}
