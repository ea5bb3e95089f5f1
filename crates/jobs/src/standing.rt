//! What stands in a job, by number, height and position. Reading changes nothing.
ghost use Rattle.std.specs.Prelude.{◌≡◌};
ghost use Rattle.records.specs.Level.{height_of};
ghost use Rattle.records.specs.Wall.{position_of};
ghost use Rattle.settings.specs.Figures.{entry};
ghost use Rattle.tables.specs.Keys.{found};
ghost use Rattle.tables.specs.Table.{listed};

use crate::job::Job;
use editions::edition::Edition;
use records::level::Level;
use records::wall::Wall;

// `level` and `wall` are a pair by their names: what is the same of them is the table's.
impl<E: Edition> Job<E> {
    // By number, as `set` takes it.
    /// The figure of the setting with that number, if it has one.
    pub fn setting(&self, number: u32) -> Option<u32>
        ensures { result ≡ entry self.now.building.settings number }
    {
        self.building.settings.get(number)
    }

    /// The level at a height, if there is one.
    pub fn level(&self, height: u32) -> Option<Level>
        ensures { result ≡ found height_of (listed self.now.building.levels) height }
    {
        self.building.levels.find(height)
    }

    /// The wall at a position, if there is one.
    pub fn wall(&self, position: u32) -> Option<Wall>
        ensures { result ≡ found position_of (listed self.now.building.walls) position }
    {
        self.building.walls.find(position)
    }
}
