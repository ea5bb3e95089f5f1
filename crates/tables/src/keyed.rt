//! What a record is that a table keeps: it has a key, and figures that are in range or refused.
ghost use Rattle.std.specs.Prelude.{◌≡◌, ℕ, Bool, true, Option, OnOk};
ghost use Rattle.std.specs.Result.{result_err};
ghost use Rattle.faults.specs.declared.fault.Cause.{Cause};
ghost use Rattle.faults.specs.declared.fault.Fault.{Fault};

use faults::fault::{Cause, Fault};

/// A record with a key.
pub trait Keyed: Copy {
    /// Why a record is refused for want of room: the table is full, and has none at the record's key.
    const FULL: Cause;

    /// Why a key is refused at which no record stands.
    const ABSENT: Cause;

    // the two constants, as clauses cite them
    ghost FULL: { Cause };

    ghost ABSENT: { Cause };

    ghost key: { Self → ℕ };

    /// The record's figures are in range, as a test.
    ghost fits: { Self → Bool };

    /// Why the record is refused by its figures, if it is.
    ghost figure_refusal: { Self → Option Fault };

    fn key(&self) -> u32
        ensures { result ≡ key self.now };

    /// Refuses the first of the record's figures that is out of range.
    fn admit(&self) -> Result<(), Fault>
        ensures refusal { result_err result ≡ figure_refusal self.now }
        ensures fit { OnOk result (fits self.now ≡ true) };
}
