//! A job's records and the tables that keep them: levels by height and walls by position, and the figures of an analysis.
#![tactic(auto)]

pub mod analysis;
pub mod level;
pub mod levels;
pub mod wall;
pub mod walls;
