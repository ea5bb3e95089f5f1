//! What an edition of a code is: the settings that it needs, and what it answers from them.
ghost use Rattle.std.specs.Prelude.{◌≡◌, ℕ};
ghost use Rattle.settings.specs.declared.record.Settings.{Settings};
ghost use Rattle.editions.specs.declared.edition.Answers.{Answers};
ghost use Rattle.editions.specs.Edition.{Basic, Asked, Bounded, Agree};

use crate::ratio::Ratio;
use settings::record::Settings;

/// What an edition answers.
#[derive(Clone, Copy, PartialEq, Eq, Debug)]
pub struct Answers {
    /// The base shear V.
    pub shear: u32,
    /// The part of V that goes to the roof before the rest is shared.
    pub top: u32,
    /// The exponent number e: the power of the heights is 1 + e / 2,048.
    pub exponent: u32,
    /// What a deflection is multiplied by to give the drift.
    pub drift: Ratio,
    /// The stability divisor.
    pub stability: u32,
}

/// An edition of a code: its needed set, and its meaning, a ghost member that its method answers.
pub trait Edition {
    // A number, as `Settings::present` gives it: a list of settings would be turned into that number at each question.
    /// The set of the settings that the edition needs, a binary digit for each number.
    const NEEDS: u16;

    // the constant, as clauses cite it
    ghost NEEDS: { ℕ };

    ghost meaning: { Self → Settings → ℕ → ℕ → Answers };

    /// The answers to the settings, the total weight and the used period.
    fn answers(&self, s: &Settings, weight: u32, period: u32) -> Answers
        requires { Asked NEEDS s.now weight period }
        ensures { result ≡ meaning self.now s.now weight period };

    ghost basic: { Basic NEEDS };

    ghost bounded: { (e : Self) (s : Settings) (w t : ℕ) → Asked NEEDS s w t → Bounded (meaning e s w t) };

    ghost confined: { (e : Self) (s u : Settings) (w t : ℕ) → Asked NEEDS s w t → Asked NEEDS u w t → Agree NEEDS s u → meaning e s w t ≡ meaning e u w t };
}
