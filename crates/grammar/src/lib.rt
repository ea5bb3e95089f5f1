//! The grammar of a deck: its lines, read as an edition and entries, and handed over one by one.
#![tactic(auto)]

pub mod entry;
pub mod line;
pub mod reading;
pub mod word;
