//! The sheet: forces that add up to the base shear, story shears and overturning moments, from an edition's answers and the levels.
#![tactic(auto)]

pub mod bearing;
mod descent;
mod layout;
pub mod line;
pub mod portion;
pub mod sheet;
