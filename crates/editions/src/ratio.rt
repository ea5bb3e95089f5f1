//! Fractions of whole numbers, never rounded on the way: the smaller and the larger of two, and rounding up.
ghost use Rattle.std.specs.Prelude.{◌≡◌, ◌*◌, ◌<◌, nat_le};
ghost use Rattle.editions.specs.Ratios.{AtMost, smaller as smaller_of, larger as larger_of, up, Ceiling};

/// The fraction `num / den`. `==` compares the parts.
#[derive(Clone, Copy, PartialEq, Eq, Debug)]
pub struct Ratio {
    pub num: u64,
    pub den: u64,
}

// No `Ord`: by cross products the order is not transitive where a denominator is 0, and a derived one would compare the pairs.
impl Ratio {
    /// Whether the fraction is at most another.
    fn at_most(self, other: Ratio) -> bool
        ensures { result ≡ nat_le (self.num * other.den) (other.num * self.den) }
    {
        self.num as u128 * other.den as u128 <= other.num as u128 * self.den as u128
    }

    /// The smaller of two fractions.
    pub fn smaller(self, other: Ratio) -> Ratio
        ensures value { result ≡ smaller_of self other }
        ensures bound { AtMost result self × AtMost result other }
    {
        if self.at_most(other) { self } else { other }
    }

    /// The larger of two fractions.
    pub fn larger(self, other: Ratio) -> Ratio
        ensures value { result ≡ larger_of self other }
        ensures bound { AtMost self result × AtMost other result }
    {
        if self.at_most(other) { other } else { self }
    }

    /// The least whole number that is not below the fraction.
    pub fn rounded_up(self) -> u64
        requires { 0 < self.den }
        ensures value { result ≡ up self }
        ensures ceiling { Ceiling self result }
    {
        self.num.div_ceil(self.den)
    }
}
