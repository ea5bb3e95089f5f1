//! A job: one building's figures under one edition, and what is asked of it.
#![tactic(auto)]

pub mod building;
pub mod job;
pub mod questions;
pub mod standing;
