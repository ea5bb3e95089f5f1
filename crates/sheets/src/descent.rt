//! The way down from the roof: the story shears and the overturning moments.
ghost use Rattle.std.specs.Prelude.{◌≡◌, ◌+◌, ◌-◌, ◌*◌, ◌≤◌};

/// A height, the shear of the forces so far and their overturning moment at that height.
#[derive(Clone, Copy)]
pub(crate) struct Descent {
    pub(crate) height: u32,
    pub(crate) shear: u32,
    pub(crate) moment: u64,
    ghost low: { height ≤ 500000 },
    ghost capped: { shear ≤ 1000000 },
    ghost turns: { moment + shear * height ≤ shear * 500000 },
}

impl Descent {
    /// At a height, before any force.
    pub(crate) fn at(height: u32) -> Descent
        requires { height ≤ 500000 }
        ensures { (result.height ≡ height) × (result.shear ≡ 0) × (result.moment ≡ 0) }
    {
        Descent {
            height,
            shear: 0,
            moment: 0,
        }
    }

    /// Down to a height: the moment grows by the shear times the way.
    pub(crate) fn down_to(self, height: u32) -> Descent
        requires { height ≤ self.height }
        ensures height { result.height ≡ height }
        ensures shear { result.shear ≡ self.shear }
        ensures moment { result.moment ≡ self.moment + self.shear * (self.height - height) }
    {
        let way = self.height - height;
        Descent {
            height,
            shear: self.shear,
            moment: self.moment + self.shear as u64 * way as u64,
        }
    }

    /// With a force at this height.
    pub(crate) fn with_force(self, force: u32) -> Descent
        requires { self.shear + force ≤ 1000000 }
        ensures height { result.height ≡ self.height }
        ensures shear { result.shear ≡ self.shear + force }
        ensures moment { result.moment ≡ self.moment }
    {
        Descent {
            height: self.height,
            shear: self.shear + force,
            moment: self.moment,
        }
    }
}
