//! The settings by name and number, and the range of each.
ghost use Rattle.std.specs.Prelude.{◌≡◌, Some};
ghost use Rattle.std.specs.List.{slice_get};
ghost use Rattle.settings.specs.Ranges.{settings, number_of, range_of as range_of_setting, range_at, numbered, Usable, Ruled};

use faults::fault::{Cause, Fault, Layer};
use faults::range::Range;

/// A setting, by the name that the codes give it; its number is its place in this list.
#[derive(Clone, Copy, PartialEq, Eq, Debug)]
pub enum Setting {
    /// The response modification factor, in hundredths.
    R = 0,
    /// The importance factor, in hundredths.
    I = 1,
    /// The computed period, in ms.
    T = 2,
    /// The approximate period, in ms.
    Ta = 3,
    /// The coefficient of the upper limit on the period, in hundredths.
    Cu = 4,
    /// The allowable drift, in thousandths of the story height.
    Drift = 5,
    /// 1 where drifts are read at the edges, 0 where they are read at the centre.
    Edge = 6,
    /// The short-period design acceleration, in thousandths of gravity.
    Sds = 7,
    /// The one-second design acceleration, in thousandths of gravity.
    Sd1 = 8,
    /// The one-second mapped acceleration, in thousandths of gravity.
    S1 = 9,
    /// The long-period transition, in ms.
    Tl = 10,
    /// The deflection amplification factor, in hundredths.
    Cd = 11,
    /// The ratio of shear demand to shear capacity, in hundredths.
    Beta = 12,
    /// The seismic coefficient Ca, in thousandths.
    Ca = 13,
    /// The seismic coefficient Cv, in thousandths.
    Cv = 14,
    /// The zone factor times the near-source factor, in thousandths; 0 outside the highest zone.
    Zn = 15,
}

impl Setting {
    /// The settings, by number.
    const ALL: [Setting; 16] = [
        Setting::R,
        Setting::I,
        Setting::T,
        Setting::Ta,
        Setting::Cu,
        Setting::Drift,
        Setting::Edge,
        Setting::Sds,
        Setting::Sd1,
        Setting::S1,
        Setting::Tl,
        Setting::Cd,
        Setting::Beta,
        Setting::Ca,
        Setting::Cv,
        Setting::Zn,
    ];

    // A number is what the docs know a setting by, so it has that name: `u32::from(setting)` would be no plainer.
    /// The setting's number, its place among the settings.
    pub fn number(self) -> u32
        ensures value { result ≡ number_of self }
        ensures place { slice_get settings result ≡ Some self }
    {
        self as u32
    }

    /// The setting's range.
    pub fn range(self) -> Range
        ensures value { result ≡ range_of_setting self }
        ensures usable { Usable result }
    {
        let (least, greatest) = match self {
            Setting::R => (100, 1_000),
            Setting::I => (100, 150),
            Setting::T => (1, 20_000),
            Setting::Ta => (1, 20_000),
            Setting::Cu => (100, 200),
            Setting::Drift => (1, 50),
            Setting::Edge => (0, 1),
            Setting::Sds => (1, 4_000),
            Setting::Sd1 => (1, 4_000),
            Setting::S1 => (0, 4_000),
            Setting::Tl => (1_000, 20_000),
            Setting::Cd => (100, 1_000),
            Setting::Beta => (1, 100),
            Setting::Ca => (1, 2_000),
            Setting::Cv => (1, 2_000),
            Setting::Zn => (0, 1_000),
        };
        Range { least, greatest }
    }
}

impl TryFrom<u32> for Setting {
    type Error = Fault;

    ghost try_from_gives = { λ number r. r ≡ numbered number };

    /// The setting with that number; a number that is no setting's is refused.
    fn try_from(number: u32) -> Result<Setting, Fault> {
        Setting::ALL
            .get(number as usize)
            .copied()
            .ok_or(Fault::new(Layer::Tables, Cause::SettingUnknown, number))
    }
}

/// The range of the setting with that number, if there is one.
pub fn range_of(number: u32) -> Option<Range>
    ensures value { result ≡ range_at number }
    ensures rule { Ruled number result }
{
    Setting::try_from(number).ok().map(Setting::range)
}
