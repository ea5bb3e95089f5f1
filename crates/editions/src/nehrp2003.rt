//! NEHRP 2003, edition 1.
ghost use Rattle.std.specs.Prelude.{◌≡◌, ◌≤◌};
ghost use Rattle.settings.specs.Sets.{Present};
ghost use Rattle.editions.specs.Nehrp2003.{needed as needed_set, figures, Fair, Loaded, share, plateau, period_term, floor, near_floor, governing as governing_of, exponent as exponent_of, meaning as meaning_of};
ghost use Rattle.editions.specs.Ratios.{up, Ceiling};
ghost use Rattle.editions.specs.Nehrp;
ghost use Rattle.std.proofs.Common.{rules};

use crate::edition::{Answers, Edition};
use crate::ratio::Ratio;
use settings::record::Settings;
use settings::setting::Setting;

/// NEHRP 2003.
#[derive(Clone, Copy, PartialEq, Eq, Debug)]
pub struct Nehrp2003;

/// The figures that the edition reads.
#[derive(Clone, Copy, PartialEq, Eq, Debug)]
pub struct Figures {
    r: u32,
    i: u32,
    sds: u32,
    sd1: u32,
    s1: u32,
    tl: u32,
    cd: u32,
    beta: u32,
}

impl Figures {
    fn read(s: &Settings) -> Figures
        requires { Present needed_set s.now }
        ensures value { result ≡ figures s.now }
        ensures fair { Fair result }
    {
        Figures {
            r: s.figure(Setting::R),
            i: s.figure(Setting::I),
            sds: s.figure(Setting::Sds),
            sd1: s.figure(Setting::Sd1),
            s1: s.figure(Setting::S1),
            tl: s.figure(Setting::Tl),
            cd: s.figure(Setting::Cd),
            beta: s.figure(Setting::Beta),
        }
    }
}

/// What the base shear is worked from, each part in its ranges.
#[derive(Clone, Copy, PartialEq, Eq, Debug)]
struct Demand {
    figures: Figures,
    weight: u32,
    period: u32,
    ghost fair: { Fair figures },
    ghost loaded: { Loaded weight period },
}

impl Demand {
    /// The fraction `factor` × I × W ÷ (R × `divisor`).
    fn share(self, factor: u64, divisor: u64) -> Ratio
        requires factor { factor ≤ 80000000 }
        requires divisor { divisor ≤ 400000000 }
        ensures { result ≡ share self.figures self.weight factor divisor }
    {
        Ratio {
            num: factor * (self.figures.i as u64 * self.weight as u64),
            den: self.figures.r as u64 * divisor,
        }
    }

    /// The plateau, which caps the period term.
    fn plateau(self) -> Ratio
        ensures { result ≡ plateau self.figures self.weight self.period }
    {
        self.share(self.figures.sds as u64, 1_000)
    }

    /// The part of the base shear that falls with the period, faster once the period is long.
    fn period_term(self) -> Ratio
        ensures { result ≡ period_term self.figures self.weight self.period }
    {
        let sd1 = self.figures.sd1 as u64;
        let tl = self.figures.tl as u64;
        let t = self.period as u64;
        if self.period <= self.figures.tl {
            self.share(sd1, t)
        } else {
            self.share(sd1 * tl, t * t)
        }
    }

    /// The least that the base shear comes to, a hundredth of the weight.
    fn floor(self) -> Ratio
        ensures { result ≡ floor self.figures self.weight self.period }
    {
        Ratio {
            num: self.weight as u64,
            den: 100,
        }
    }

    /// The floor near a major fault.
    fn near_floor(self) -> Ratio
        ensures { result ≡ near_floor self.figures self.weight self.period }
    {
        self.share(self.figures.s1 as u64, 2_000)
    }

    /// The fraction that governs the base shear: the smaller of the plateau and the period term, raised to the floors.
    fn governing(self) -> Ratio
        ensures { result ≡ governing_of self.figures self.weight self.period }
    {
        let raised = self
            .plateau()
            .smaller(self.period_term())
            .larger(self.floor());
        if self.figures.s1 < 600 {
            raised
        } else {
            raised.larger(self.near_floor())
        }
    }

    /// The base shear V: the governing fraction rounded up, once.
    fn base_shear(self) -> u32
        ensures value { result ≡ up (governing_of self.figures self.weight self.period) }
        ensures ceiling { Ceiling (governing_of self.figures self.weight self.period) result }
    {
        self.governing().rounded_up() as u32
    }
}

/// The exponent number e: 0 up to 500 ms, 2,048 from 2,500 ms on, and between them in proportion, rounded down.
pub fn exponent(period: u32) -> u32
    ensures { result ≡ exponent_of period }
{
    if period <= 500 {
        0
    } else if period >= 2_500 {
        2_048
    } else {
        (period - 500) * 128 / 125
    }
}

impl Edition for Nehrp2003 {
    const NEEDS: u16 = 0b1_1111_1111_1111;

    ghost NEEDS = { needed_set };

    ghost meaning = { λ _. meaning_of };

    ghost basic = { Prim.search rules };

    ghost bounded = { λ e s w t a. Nehrp.bounded s w t a };

    ghost confined = { λ e s u w t a b same. Nehrp.confined s u w t same };

    fn answers(&self, s: &Settings, weight: u32, period: u32) -> Answers {
        let f = Figures::read(s);
        let demand = Demand {
            figures: f,
            weight,
            period,
        };
        Answers {
            shear: demand.base_shear(),
            top: 0,
            exponent: exponent(period),
            drift: Ratio {
                num: f.cd as u64,
                den: f.i as u64,
            },
            stability: (f.beta * f.cd).max(20_000),
        }
    }
}
