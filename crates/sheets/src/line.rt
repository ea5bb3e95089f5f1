//! What a sheet says.

/// A sheet's line, for one level.
#[derive(Clone, Copy, PartialEq, Eq, Debug, Default)]
pub struct Line {
    /// The level's height.
    pub height: u32,
    /// The force at the level.
    pub force: u32,
    /// The least that the force can be.
    pub low: u32,
    /// The greatest that the force can be.
    pub high: u32,
    /// The shear of the story under the level.
    pub shear: u32,
    /// The overturning moment at the level.
    pub moment: u64,
}

/// A sheet's totals.
#[derive(Clone, Copy, PartialEq, Eq, Debug)]
pub struct Totals {
    /// The base shear V.
    pub shear: u32,
    /// The overturning moment at the base.
    pub moment: u64,
}
