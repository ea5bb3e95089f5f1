//! Settings by name.
use crate::refusals::refused;
use settings::names::number_of;

/// The names, in the order of their numbers.
const NAMES: [&str; 16] = [
    "R", "I", "T", "TA", "CU", "DRIFT", "EDGE", "SDS", "SD1", "S1", "TL", "CD", "BETA", "CA", "CV",
    "ZN",
];

/// Texts that are no setting's name.
const OTHERS: [&str; 7] = ["", "r", "TX", "SD", "SDSS", " R", "DRIFTS"];

#[test]
fn each_name_has_its_number(rt: HostRuntime) {
    for (number, name) in NAMES.iter().enumerate() {
        assert!(rt; number_of(*name).ok() == Some(number as u32), "{}", *name);
    }
}

#[test]
fn other_texts_are_refused(rt: HostRuntime) {
    for name in OTHERS.iter() {
        assert!(rt; refused(number_of(*name), 6, 0), "{}", *name);
    }
}
