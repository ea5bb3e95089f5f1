//! Lines as bytes: cut at a mark into fields, numbers read and written in decimal, texts written into a buffer.
#![tactic(auto)]

pub mod cut;
pub mod fields;
pub mod number;
pub mod put;
