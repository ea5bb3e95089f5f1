//! The table of walls: at most 16, by position.
use crate::wall::Wall;
use tables::table::Table;

/// The walls of a building, by position.
pub type Walls = Table<Wall, 16>;
