//! What a frame program worked out for a level: the force that it used, and the deflections that came of it.
ghost use Rattle.std.specs.Prelude.{◌≡◌, OnOk};
ghost use Rattle.std.specs.Result.{result_err};
ghost use Rattle.records.specs.Analysis.{FitAnalysis, figure_refusal};

use faults::fault::{Cause, Fault};
use faults::range::Range;

/// An analysis. The force is in units of 0.1 kN, deflections are kept in whole numbers of 1/1,024 mm.
#[derive(Clone, Copy, PartialEq, Eq, Debug)]
pub struct Analysis {
    /// The force that was used.
    pub force: u32,
    /// The deflection at the centre.
    pub centre: u32,
    /// The deflection at the left edge.
    pub left: u32,
    /// The deflection at the right edge.
    pub right: u32,
}

/// The forces that an analysis may have used.
pub const FORCES_USED: Range = Range {
    least: 0,
    greatest: 1_000_000,
};

/// The deflections that may be kept: those under 4,096 mm.
pub const DEFLECTIONS: Range = Range {
    least: 0,
    greatest: 4_194_303,
};

impl Analysis {
    // As `Keyed::admit`, and no trait above both: an analysis has no key, and nothing takes analyses and other kinds alike.
    /// Refuses the force used if it is out of range, then the first deflection that is: centre, left edge, right edge.
    pub fn admit(self) -> Result<(), Fault>
        ensures refusal { result_err result ≡ figure_refusal self }
        ensures fit { OnOk result (FitAnalysis self) }
    {
        FORCES_USED.admit(self.force, Cause::ForceUsedRange, self.force)?;
        DEFLECTIONS.admit(self.centre, Cause::DeflectionRange, 1)?;
        DEFLECTIONS.admit(self.left, Cause::DeflectionRange, 2)?;
        DEFLECTIONS.admit(self.right, Cause::DeflectionRange, 3)
    }
}
