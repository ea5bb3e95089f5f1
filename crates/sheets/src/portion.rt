//! What the levels share.

/// An amount that is shared, and the sums of weight × lower end and weight × upper end over the levels.
#[derive(Clone, Copy, PartialEq, Eq, Debug)]
pub struct Portion {
    pub(crate) amount: u32,
    pub(crate) least: u64,
    pub(crate) most: u64,
}
