//! A job is opened under one edition and keeps it. An entry changes the settings or one table of its building, or
//! is refused and changes nothing.
ghost use Rattle.std.specs.Prelude.{◌≡◌, ℕ, [], None};
ghost use Rattle.settings.specs.Figures.{entry};
ghost use Rattle.tables.specs.Table.{listed};
ghost use Rattle.jobs.specs.Entries.{IsSet, LevelEntered, LevelDropped, WallEntered, WallDropped};

use crate::building::Building;
use editions::edition::Edition;
use faults::fault::Fault;
use records::level::Level;
use records::wall::Wall;

/// A building's figures under an edition.
#[derive(Drop)]
pub struct Job<E> {
    pub(crate) edition: E,
    pub(crate) building: Building,
}

// The calls of levels and of walls are pairs by their names: what is the same of them is the table's. That the edition stays is a clause
// of each, since no type says what a call leaves as it was.
impl<E: Edition> Job<E> {
    /// Opens a job with no figure.
    pub fn new(edition: E) -> Job<E>
        ensures edition { result.edition ≡ edition }
        ensures settings { (n : ℕ) → entry result.building.settings n ≡ None }
        ensures levels { listed result.building.levels ≡ [] }
        ensures walls { listed result.building.walls ≡ [] }
    {
        Job {
            edition,
            building: Building::new(),
        }
    }

    // By number, a rule of the project: decks and calling programs name a setting so, and the call refuses a number that is none's.
    /// Gives the setting with that number a figure.
    pub fn set(&mut self, number: u32, value: u32) -> Result<(), Fault>
        ensures building { IsSet self.old.building self.new.building number value result }
        ensures edition { self.new.edition ≡ self.old.edition }
    {
        self.building.settings.set(number, value)
    }

    /// Enters a level, or another weight and gravity load for the level at that height.
    pub fn enter_level(&mut self, height: u32, weight: u32, gravity: u32) -> Result<(), Fault>
        ensures building { LevelEntered self.old.building self.new.building height weight gravity result }
        ensures edition { self.new.edition ≡ self.old.edition }
    {
        self.building.levels.enter(Level {
            height,
            weight,
            gravity,
        })
    }

    /// Drops the level at a height.
    pub fn drop_level(&mut self, height: u32) -> Result<(), Fault>
        ensures building { LevelDropped self.old.building self.new.building height result }
        ensures edition { self.new.edition ≡ self.old.edition }
    {
        self.building.levels.strike(height)
    }

    /// Enters a wall, in place of the one at that position if there is one.
    pub fn enter_wall(&mut self, position: u32, rigidity: u32) -> Result<(), Fault>
        ensures building { WallEntered self.old.building self.new.building position rigidity result }
        ensures edition { self.new.edition ≡ self.old.edition }
    {
        self.building.walls.enter(Wall { position, rigidity })
    }

    /// Drops the wall at a position.
    pub fn drop_wall(&mut self, position: u32) -> Result<(), Fault>
        ensures building { WallDropped self.old.building self.new.building position result }
        ensures edition { self.new.edition ≡ self.old.edition }
    {
        self.building.walls.strike(position)
    }
}
