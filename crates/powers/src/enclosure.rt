//! A number from 0 to 1, enclosed between two whole numbers of parts.
ghost use Rattle.std.specs.Prelude.{◌≡◌, ◌<◌, ◌≤◌};
ghost use Rattle.powers.specs.Powers.{Small, ratio, rooted, times};

use crate::roots::{ceil_root, floor_root};

/// What stands for 1: an enclosure counts in parts of it.
pub const SCALE: u64 = 67_108_864;

// That the ends are in order and at most 1 is for clauses to say: a type that said it would ask it of whoever builds one.
/// A number between `lo / SCALE` and `hi / SCALE`.
#[derive(Clone, Copy, PartialEq, Eq, Debug, Default)]
pub struct Enclosure {
    pub lo: u32,
    pub hi: u32,
}

impl Enclosure {
    /// `height / roof`.
    pub(crate) fn of_ratio(height: u32, roof: u32) -> Enclosure
        requires { (0 < roof) × (height ≤ roof) }
        ensures { result ≡ ratio height roof }
    {
        let whole = height as u64 * SCALE;
        let roof = roof as u64;
        Enclosure {
            lo: (whole / roof) as u32,
            hi: whole.div_ceil(roof) as u32,
        }
    }

    /// The square root of the number.
    #[tactic(auto, using(crate::proofs::Root::roots_order, crate::proofs::Root::upper_least))]
    pub(crate) fn square_root(self) -> Enclosure
        requires { Small self }
        ensures value { result ≡ rooted self }
        ensures small { Small result }
    {
        Enclosure {
            lo: floor_root(self.lo as u64 * SCALE) as u32,
            hi: ceil_root(self.hi as u64 * SCALE) as u32,
        }
    }

    /// The product of two numbers.
    pub(crate) fn multiplied(self, by: Enclosure) -> Enclosure
        requires { (Small self) × (Small by) }
        ensures { result ≡ times self by }
    {
        let lo = self.lo as u64 * by.lo as u64;
        let hi = self.hi as u64 * by.hi as u64;
        Enclosure {
            lo: (lo / SCALE) as u32,
            hi: hi.div_ceil(SCALE) as u32,
        }
    }
}
