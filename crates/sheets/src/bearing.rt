//! The levels as bearers of the base shear, from the roof down.
ghost use Rattle.std.specs.Prelude.{◌≡◌, ◌≤◌};
ghost use Rattle.sharing.specs.Sharing.{limit};
ghost use Rattle.sheets.specs.Bearings.{Standing, bearings, stake as stake_of, upper as upper_of};
ghost use Rattle.std.proofs.Common.{rules};

use arrayvec::ArrayVec;
use powers::enclosure::Enclosure;
use powers::height::height_power;
use records::level::Level;
use sharing::bearer::Bearer;
use std::marker::Model;

/// A level with the enclosure of its height power.
#[derive(Clone, Copy, PartialEq, Eq, Debug, Default)]
pub struct Bearing {
    pub(crate) height: u32,
    pub(crate) weight: u32,
    pub(crate) power: Enclosure,
}

impl Model for Bearing {
    ghost use Rattle.sheets.specs.Bears.{Bears};

    ghost Value = { Bears };

    ghost use Rattle.sheets.specs.Bearings.{Borne};

    ghost view = { λ a. record { height = a.height; weight = a.weight; power = a.power } };

    ghost invariant = { λ a. Borne (record { height = a.height; weight = a.weight; power = a.power }) };

    ghost inverse = { λ b. record { height = b.height; weight = b.weight; power = b.power } };
}

impl Bearer for Bearing {
    const GREATEST: u64 = 60_000 * 67_108_864;

    ghost GREATEST = { limit };

    ghost stake = { stake_of };

    ghost bounded = { Prim.search rules };

    /// The weight times the lower end of the height power.
    fn stake(&self) -> u64
        ensures value { result ≡ stake_of self.now }
        ensures most { result ≤ limit }
    {
        self.weight as u64 * self.power.lo as u64
    }
}

impl Bearing {
    /// The weight times the upper end of the height power.
    pub(crate) fn upper(&self) -> u64
        ensures value { result ≡ upper_of self.now }
        ensures most { result ≤ limit }
    {
        self.weight as u64 * self.power.hi as u64
    }
}

/// The levels from the roof down, each with its height power for the exponent number `e`.
pub(crate) fn from_roof(levels: &[Level], e: u32) -> ArrayVec<Bearing, 64>
    requires standing { Standing levels.now }
    requires exponent { e ≤ 2048 }
    ensures { result.items ≡ bearings e levels.now }
{
    let roof = levels[levels.len() - 1].height;
    let mut row = ArrayVec::new();
    for level in levels.iter().rev() {
        row.push(Bearing {
            height: level.height,
            weight: level.weight,
            power: height_power(level.height, roof, e),
        });
    }
    row
}
