//! A building's figures. Each table and the record of settings carry their own order and ranges.
ghost use Rattle.std.specs.Prelude.{◌≡◌, ℕ, [], None};
ghost use Rattle.settings.specs.Figures.{entry};
ghost use Rattle.tables.specs.Table.{listed};

use records::levels::Levels;
use records::walls::Walls;
use settings::record::Settings;

/// The figures of one building, for one direction of shaking.
#[derive(Clone, Copy)]
pub struct Building {
    pub(crate) settings: Settings,
    pub(crate) levels: Levels,
    pub(crate) walls: Walls,
}

impl Building {
    /// No figure.
    pub(crate) fn new() -> Building
        ensures settings { (n : ℕ) → entry result.settings n ≡ None }
        ensures levels { listed result.levels ≡ [] }
        ensures walls { listed result.walls ≡ [] }
    {
        Building {
            settings: Settings::new(),
            levels: Levels::new(),
            walls: Walls::new(),
        }
    }
}
