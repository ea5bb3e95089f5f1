//! Tables of records in order of a key, for every kind of record.
#![tactic(auto)]

pub mod keyed;
pub mod rows;
pub mod table;
