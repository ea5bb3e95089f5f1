//! The names of the settings, by which a calling program finds their numbers.
ghost use Rattle.std.specs.Prelude.{◌≡◌, Ok, Err, ◌≢◌};
ghost use Rattle.std.specs.Option.{ok_or};
ghost use Rattle.settings.specs.declared.setting.Setting.{Setting};
ghost use Rattle.settings.specs.Names.{name_of, called, unknown};
ghost use Rattle.settings.specs.Ranges.{number_of};

use crate::setting::Setting;
use faults::fault::{Cause, Fault, Layer};
use std::str::FromStr;

impl FromStr for Setting {
    type Err = Fault;

    ghost from_str_gives = { λ name r. r ≡ ok_or (called name) unknown };

    /// The setting of that name; a text that is no setting's name is refused.
    fn from_str(name: &str) -> Result<Setting, Fault> {
        match name {
            "R" => Ok(Setting::R),
            "I" => Ok(Setting::I),
            "T" => Ok(Setting::T),
            "TA" => Ok(Setting::Ta),
            "CU" => Ok(Setting::Cu),
            "DRIFT" => Ok(Setting::Drift),
            "EDGE" => Ok(Setting::Edge),
            "SDS" => Ok(Setting::Sds),
            "SD1" => Ok(Setting::Sd1),
            "S1" => Ok(Setting::S1),
            "TL" => Ok(Setting::Tl),
            "CD" => Ok(Setting::Cd),
            "BETA" => Ok(Setting::Beta),
            "CA" => Ok(Setting::Ca),
            "CV" => Ok(Setting::Cv),
            "ZN" => Ok(Setting::Zn),
            _ => Err(Fault::new(Layer::Tables, Cause::SettingUnknown, 0)),
        }
    }
}

/// The number of the setting of that name; a text that is no setting's name is refused.
pub fn number_of(name: &str) -> Result<u32, Fault>
    ensures named { (s : Setting) → name.now ≡ name_of s → result ≡ Ok (number_of s) }
    ensures unnamed { ((s : Setting) → name.now ≢ name_of s) → result ≡ Err unknown }
{
    let setting: Setting = name.parse()?;
    Ok(setting.number())
}
