//! The sixteen settings of a job: their numbers and ranges, the record of their figures, and which of a needed set is absent.
#![tactic(auto)]

pub mod names;
pub mod needed;
pub mod record;
pub mod setting;
