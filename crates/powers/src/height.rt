//! The power of a level's height over the roof's, worked digit by digit of the exponent.
ghost use Rattle.std.specs.Prelude.{◌≡◌, ◌+◌, ◌≤◌, eqb};
ghost use Rattle.powers.specs.Law.{Encloses};
ghost use Rattle.powers.specs.Powers.{scale, base, Small, digit, taken, deeper, height_power};

use crate::enclosure::Enclosure;

/// The unit of an exponent number: `e` stands for `e / BASE`.
pub const BASE: u32 = 2_048;

/// The binary digits of `e / BASE` after the units.
const PLACES: u32 = 11;

/// The power so far, and the root that the next digit takes as a factor.
#[derive(Clone, Copy)]
struct Progress {
    power: Enclosure,
    root: Enclosure,
}

/// Whether the digit of `e / BASE` with the weight `1 / 2^place` is 1.
fn has_digit(e: u32, place: u32) -> bool
    requires { (e ≤ base) × (place ≤ 11) }
    ensures { result ≡ eqb (digit base e place) 1 }
{
    (e << place) / BASE % 2 == 1
}

impl Progress {
    /// Reads a digit: where it is 1, the power takes the root as a factor.
    fn with_digit(self, one: bool) -> Progress
        requires { (Small self.power) × (Small self.root) }
        ensures { result ≡ taken one self }
    {
        if one {
            Progress {
                power: self.power.multiplied(self.root),
                root: self.root,
            }
        } else {
            self
        }
    }

    /// Goes on to the next digit, of half the weight, and reads it.
    fn next(self, one: bool) -> Progress
        requires { (Small self.power) × (Small self.root) }
        ensures { result ≡ taken one (deeper self) }
    {
        let deeper = Progress {
            power: self.power,
            root: self.root.square_root(),
        };
        deeper.with_digit(one)
    }
}

// That `e` is at most `BASE` stays a clause: callers have the number from an edition's answers, and a type of exponents would ask more.
/// `height / roof` to the power `1 + e / BASE`.
#[tactic(auto, using(crate::proofs::Digits::after_more), unfolding(crate::specs::Powers::after))]
pub fn height_power(height: u32, roof: u32, e: u32) -> Enclosure
    requires above { 1 ≤ height }
    requires under { height ≤ roof }
    requires exponent { e ≤ base }
    ensures value { result ≡ height_power roof height e }
    ensures encloses { Encloses scale base (base + e) roof height result.lo result.hi }
    ensures small { Small result }
{
    let ratio = Enclosure::of_ratio(height, roof);
    let start = Progress {
        power: ratio,
        root: ratio,
    };
    let mut progress = start.with_digit(has_digit(e, 0));
    for place in 1..=PLACES {
        progress = progress.next(has_digit(e, place));
    }
    progress.power
}
