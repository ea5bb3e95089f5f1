//! Worked figures and tables of cases, run against the crates that they test.
#![tactic(auto)]

#[cfg(test)]
mod bounds;
#[cfg(test)]
mod decks_told;
#[cfg(test)]
mod first_job;
#[cfg(test)]
mod levels_full;
#[cfg(test)]
mod names;
#[cfg(test)]
mod refusals;
#[cfg(test)]
mod shares;
#[cfg(test)]
mod walls_full;
