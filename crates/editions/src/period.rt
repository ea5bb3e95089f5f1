//! The period that the loads are worked with.
ghost use Rattle.std.specs.Prelude.{◌≡◌, ◌≤◌};
ghost use Rattle.editions.specs.Period.{Timed, used_period};

use settings::record::Settings;
use settings::setting::Setting;

/// The smaller of the computed period and the upper limit on it, the whole part of CU × TA ÷ 100.
pub fn used_period(s: &Settings) -> u32
    requires { Timed s.now }
    ensures value { result ≡ used_period s.now }
    ensures least { 1 ≤ result }
    ensures most { result ≤ 20000 }
{
    let computed = s.figure(Setting::T);
    let approximate = s.figure(Setting::Ta);
    let coefficient = s.figure(Setting::Cu);
    computed.min(coefficient * approximate / 100)
}
