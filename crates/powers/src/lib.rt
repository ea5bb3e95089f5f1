//! Powers of a level's height over the roof's, each enclosed between two whole numbers.
#![tactic(auto)]

pub mod enclosure;
pub mod height;
mod roots;
