//! The laying out of a sheet: each level's force, the least and the greatest that it can be, and the lines.
ghost use Rattle.std.specs.Prelude.{◌≡◌, ◌+◌, ◌*◌, ◌<◌, ◌≤◌, ◌++◌, length, drop, slice_index_or};
ghost use Rattle.sharing.specs.Sharing.{limit};
ghost use Rattle.sheets.specs.Bearings.{Falling, ground as no_bearing, height_at};
ghost use Rattle.sheets.specs.Shares.{Ready, Certain, Forces, at_roof, force as force_at, portion as portion_of, low_share, high_share, uncertain, lowest_uncertain};
ghost use Rattle.sheets.specs.Sheet.{Lawful, amount_of, base_moment, lines_of};
ghost use Rattle.std.proofs.Props.{props};

use crate::bearing::Bearing;
use crate::descent::Descent;
use crate::line::Line;
use crate::portion::Portion;
use editions::edition::Answers;
use sharing::bearer::Bearer;
use sharing::parts::{share_within, total_stake};

/// What the roof has of the top force, and any other level.
fn at_roof(top: u32, k: usize) -> u32
    ensures { result ≡ at_roof top k }
{
    if k == 0 { top } else { 0 }
}

/// The levels from the roof down, with what they share and the top force.
#[derive(Clone, Copy)]
pub(crate) struct Layout<'a> {
    portion: Portion,
    top: u32,
    bearers: &'a [Bearing],
    ghost ready: { Ready portion bearers.now } by { Prim.hlevel props },
    ghost capped: { portion.amount + top ≤ 1000000 },
    ghost some: { 0 < length bearers.now },
}

impl<'a> Layout<'a> {
    /// The answers' base shear, less the top force, is what these levels share.
    #[tactic(auto, using(crate::proofs::Bounds::stakes_within))]
    pub(crate) fn of(answers: Answers, bearers: &'a [Bearing]) -> Layout<'a>
        requires lawful { Lawful answers }
        requires falling { Falling bearers.now }
        ensures portion { result.portion ≡ portion_of (amount_of answers) bearers.now }
        ensures top { result.top ≡ answers.top }
        ensures bearers { result.bearers.now ≡ bearers.now }
    {
        Layout {
            portion: Portion {
                amount: answers.shear - answers.top,
                least: total_stake(bearers),
                most: bearers.iter().map(|bearer| bearer.upper()).sum(),
            },
            top: answers.top,
            bearers,
        }
    }

    /// A level's share, rounded down, if its power were as low as can be and every level's as high as can be.
    fn low(&self, bearer: &Bearing) -> u64
        ensures value { result ≡ low_share self.now.portion bearer.now }
        ensures most { result ≤ 1000000 * limit }
    {
        self.portion.amount as u64 * bearer.stake() / self.portion.most
    }

    /// A level's share, rounded up, if its power were as high as can be and every level's as low as can be.
    fn high(&self, bearer: &Bearing) -> u64
        ensures { result ≡ high_share self.now.portion bearer.now }
    {
        (self.portion.amount as u64 * bearer.upper()).div_ceil(self.portion.least)
    }

    /// Whether a level's low and high lie more than two apart.
    fn is_uncertain(&self, bearer: &Bearing) -> bool
        ensures { result ≡ uncertain self.now.portion bearer.now }
    {
        self.low(bearer) + 2 < self.high(bearer)
    }

    /// The height of the lowest level whose low and high lie more than two apart.
    pub(crate) fn lowest_uncertain(&self) -> Option<u32>
        ensures { result ≡ lowest_uncertain self.now.portion self.now.bearers.now }
    {
        self.bearers
            .iter()
            .rev()
            .find(|bearer| self.is_uncertain(bearer))
            .map(|bearer| bearer.height)
    }

    /// Shares the portion, and adds the top force at the roof: each level's force, to its place.
    #[tactic(auto, using(crate::proofs::Bounds::stakes_within))]
    pub(crate) fn put_forces(&self, forces: &mut [u32])
        requires { length forces.old ≡ length self.now.bearers.now }
        ensures { Forces self.now.portion.amount self.now.top self.now.bearers.now forces.new }
    {
        share_within(
            self.portion.amount,
            self.portion.least,
            self.bearers,
            forces,
        );
        forces[0] += self.top;
    }

    /// The line of the k-th level from the roof, which bears `force`, with what came down to it.
    fn line(&self, k: usize, bearer: &Bearing, force: u32, descent: Descent) -> Line
        requires certain { Certain self.now.portion self.now.bearers.now }
        requires place { k < length self.now.bearers.now }
        requires bearer { bearer.now ≡ slice_index_or self.now.bearers.now k no_bearing }
        ensures { result
            ≡ record {
              height = bearer.now.height;
              force = force;
              low = low_share self.now.portion bearer.now + at_roof self.now.top k;
              high = high_share self.now.portion bearer.now + at_roof self.now.top k;
              shear = descent.shear;
              moment = descent.moment;
            } }
    {
        let extra = at_roof(self.top, k);
        Line {
            height: bearer.height,
            force,
            low: self.low(bearer) as u32 + extra,
            high: self.high(bearer) as u32 + extra,
            shear: descent.shear,
            moment: descent.moment,
        }
    }

    /// Writes the lines, and gives the moment at the base.
    pub(crate) fn write_lines(&self, forces: &[u32], lines: &mut [Line]) -> u64
        requires certain { Certain self.now.portion self.now.bearers.now }
        requires forces { Forces self.now.portion.amount self.now.top self.now.bearers.now forces.now }
        requires room { length self.now.bearers.now ≤ length lines.old }
        ensures lines { lines.new
            ≡ lines_of (force_at self.now.portion.amount self.now.top self.now.bearers.now) self.now.top self.now.portion self.now.bearers.now
            ++ drop (length self.now.bearers.now) lines.old }
        ensures moment { result
            ≡ base_moment (force_at self.now.portion.amount self.now.top self.now.bearers.now) (height_at self.now.bearers.now) (length self.now.bearers.now) }
    {
        let roof = &self.bearers[0];
        let mut descent = Descent::at(roof.height);
        // the lines by place, as in `share_within`: through a `zip` with `iter_mut` the proof would know no more of them than their
        // number
        for (k, (bearer, force)) in self.bearers.iter().zip(forces).enumerate() {
            descent = descent.down_to(bearer.height).with_force(*force);
            lines[k] = self.line(k, bearer, *force, descent);
        }
        descent.down_to(0).moment
    }
}
