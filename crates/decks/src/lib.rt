//! The deck's answer: a building's figures in, its listing or its fault out, as bytes.
#![tactic(auto)]

pub mod answer;
pub mod desk;
mod listing;
pub mod reply;
