//! Sharing an amount over bearers by their stakes: one text for every kind of bearer.
#![tactic(auto)]

pub mod bearer;
pub mod parts;
