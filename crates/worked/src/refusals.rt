//! What the tests of numbered cases ask of a refusal.
use faults::fault::Fault;

// By numbers and not by names: the numbers in the cases are those of the docs, and this holds the enums to them.
/// Whether an entry was refused by the tables, with that cause and place.
pub(crate) fn refused<T: Drop>(res: Result<T, Fault>, cause: u32, place: u32) -> bool {
    res.is_err_and(|fault| {
        fault.cause.number() == cause && fault.place == place && fault.layer.number() == 1
    })
}
