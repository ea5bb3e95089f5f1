//! The record of a job's settings: a figure for each that has one, always in its range.
ghost use Rattle.settings.specs.Entries.{InRange};

use crate::setting::Setting;
use faults::fault::{Cause, Fault};

/// The figure of each setting, by number, or none where it is absent.
#[derive(Clone, Copy, PartialEq, Eq, Debug)]
pub struct Settings {
    pub(crate) entries: [Option<u32>; 16],
    ghost ranged: { InRange entries },
}

impl Settings {
    ghost use Rattle.std.specs.Prelude.{◌≡◌, ℕ, true, is_some, is_ok, if◌then◌else◌, None, MatchResult};
    ghost use Rattle.std.specs.Result.{result_err};
    ghost use Rattle.settings.specs.Entries.{Allowed, written};
    ghost use Rattle.settings.specs.Figures.{entry, figure as figure_of, Sets, refusal};
    ghost use Rattle.settings.specs.Ranges.{number_of};

    /// No setting has a figure.
    pub fn new() -> Settings
        ensures { (n : ℕ) → entry result n ≡ None }
    {
        Settings {
            entries: [None; 16],
        }
    }

    // By number, a rule of the project: decks and calling programs name a setting so, and an unknown number has no figure.
    /// The figure of the setting with that number, if it has one.
    pub fn get(&self, number: u32) -> Option<u32>
        ensures { result ≡ entry self.now number }
    {
        self.entries.get(number as usize).copied().flatten()
    }

    /// Gives the setting with that number a figure, in place of what stood; refuses an unknown number and a figure out of range.
    pub fn set(&mut self, number: u32, value: u32) -> Result<(), Fault>
        ensures refusal { result_err result ≡ refusal number value }
        ensures after { self.new.entries ≡ (if is_ok result then written self.old.entries number value else self.old.entries) }
        ensures sets { MatchResult result (λ _. Sets self.old self.new number value) (λ _. self.new ≡ self.old) }
    {
        let setting = Setting::try_from(number)?;
        setting.range().admit(value, Cause::SettingRange, number)?;
        self.entries[number as usize] = Some(value);
        Ok(())
    }

    /// The figure of a setting that has one.
    pub fn figure(&self, setting: Setting) -> u32
        requires { is_some (entry self.now (number_of setting)) ≡ true }
        ensures value { result ≡ figure_of self.now setting }
        ensures within { Allowed (number_of setting) result }
    {
        self.get(setting.number()).unwrap()
    }
}
