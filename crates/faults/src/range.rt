//! A range of figures, and the refusal of those outside.
ghost use Rattle.std.specs.Prelude.{◌≡◌, OnOk};
ghost use Rattle.std.specs.Result.{result_err};
ghost use Rattle.faults.specs.Ranges.{Within, within, outside};

use crate::fault::{Cause, Fault, Layer};

/// The figures from a least to a greatest.
#[derive(Clone, Copy, PartialEq, Eq, Debug)]
pub struct Range {
    pub least: u32,
    pub greatest: u32,
}

impl Range {
    /// Whether a figure lies in the range.
    pub fn holds(self, figure: u32) -> bool
        ensures { result ≡ within self figure }
    {
        (self.least..=self.greatest).contains(&figure)
    }

    /// Refuses a figure outside the range, by that cause and place.
    pub fn admit(self, figure: u32, cause: Cause, place: u32) -> Result<(), Fault>
        ensures refusal { result_err result ≡ outside self cause place figure }
        ensures within { OnOk result (Within self figure) }
    {
        if self.holds(figure) {
            Ok(())
        } else {
            Err(Fault::new(Layer::Tables, cause, place))
        }
    }
}
