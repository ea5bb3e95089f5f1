//! What a call answers where it refuses, and the ranges by which figures are refused.
#![tactic(auto)]

pub mod fault;
pub mod range;
