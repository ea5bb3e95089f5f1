//! A wall of the building: its position along the building and its rigidity.
ghost use Rattle.faults.specs.declared.fault.Cause.TheVariants.{WallsFull, WallAbsent};
ghost use Rattle.records.specs.Wall.{position_of, fits, figure_refusal};

use faults::fault::{Cause, Fault};
use faults::range::Range;
use tables::keyed::Keyed;

// `Default` fills the cells of a table that are no record: its rigidity is out of range.
/// A wall. Positions are in mm; a rigidity counts only beside those of the other walls.
#[derive(Clone, Copy, PartialEq, Eq, Default, Debug)]
pub struct Wall {
    pub position: u32,
    pub rigidity: u32,
}

/// The positions that a wall may have.
pub const POSITIONS: Range = Range {
    least: 0,
    greatest: 500_000,
};

/// The rigidities that a wall may have.
pub const RIGIDITIES: Range = Range {
    least: 1,
    greatest: 60_000,
};

impl Keyed for Wall {
    const FULL: Cause = Cause::WallsFull;

    const ABSENT: Cause = Cause::WallAbsent;

    ghost FULL = { WallsFull };

    ghost ABSENT = { WallAbsent };

    ghost key = { position_of };

    ghost fits = { fits };

    ghost figure_refusal = { figure_refusal };

    fn key(&self) -> u32 {
        self.position
    }

    /// Position, rigidity; the place is the figure.
    fn admit(&self) -> Result<(), Fault> {
        POSITIONS.admit(self.position, Cause::PositionRange, self.position)?;
        RIGIDITIES.admit(self.rigidity, Cause::RigidityRange, self.rigidity)
    }
}
