//! A level of the building: its height above the base, its weight and its gravity load.
ghost use Rattle.faults.specs.declared.fault.Cause.TheVariants.{LevelsFull, LevelAbsent};
ghost use Rattle.records.specs.Level.{height_of, fits, figure_refusal};

use faults::fault::{Cause, Fault};
use faults::range::Range;
use tables::keyed::Keyed;

// `Default` fills the cells of a table that are no record: no figure of it is in range.
/// A level. Heights are in mm, weights and loads in units of 0.1 kN.
#[derive(Clone, Copy, PartialEq, Eq, Default, Debug)]
pub struct Level {
    pub height: u32,
    pub weight: u32,
    pub gravity: u32,
}

/// The heights that a level may have.
pub const HEIGHTS: Range = Range {
    least: 1,
    greatest: 500_000,
};

/// The weights that a level may have.
pub const WEIGHTS: Range = Range {
    least: 1,
    greatest: 60_000,
};

/// The gravity loads that a level may have.
pub const GRAVITY_LOADS: Range = Range {
    least: 1,
    greatest: 200_000,
};

impl Keyed for Level {
    const FULL: Cause = Cause::LevelsFull;

    const ABSENT: Cause = Cause::LevelAbsent;

    ghost FULL = { LevelsFull };

    ghost ABSENT = { LevelAbsent };

    ghost key = { height_of };

    ghost fits = { fits };

    ghost figure_refusal = { figure_refusal };

    fn key(&self) -> u32 {
        self.height
    }

    /// Height, weight, gravity load; the place is the figure.
    fn admit(&self) -> Result<(), Fault> {
        HEIGHTS.admit(self.height, Cause::HeightRange, self.height)?;
        WEIGHTS.admit(self.weight, Cause::WeightRange, self.weight)?;
        GRAVITY_LOADS.admit(self.gravity, Cause::GravityRange, self.gravity)
    }
}
