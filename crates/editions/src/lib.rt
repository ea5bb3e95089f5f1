//! Code editions: what each answers from the settings, the total weight and the period.
#![tactic(auto)]

pub mod edition;
pub mod nehrp2003;
pub mod period;
pub mod ratio;
