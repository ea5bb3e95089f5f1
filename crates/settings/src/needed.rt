//! Sets of settings, a binary digit for each number, and the lowest of a needed set that is absent.
ghost use Rattle.std.specs.Prelude.{◌≡◌, ℕ, ◌<◌};
ghost use Rattle.std.specs.Int.{bit_at};
ghost use Rattle.settings.specs.Sets.{has, Lowest, lowest_absent};

use crate::record::Settings;

// A set is a number of sixteen binary digits: what is missing is one mask, and a type of sets would only wrap the number that editions
// give and callers are given.
impl Settings {
    /// The set of the settings that have a figure.
    pub fn present(&self) -> u16
        ensures { (n : ℕ) → n < 16 → bit_at result n ≡ has self.now n }
    {
        let mut set = 0;
        for (number, entry) in self.entries.iter().enumerate() {
            if entry.is_some() {
                set |= 1 << number;
            }
        }
        set
    }

    // Its number, and not the setting: it is the place of the fault that a job answers, so a setting would be turned back at once.
    /// The lowest setting of a needed set that has no figure, if there is one.
    pub fn lowest_absent(&self, needs: u16) -> Option<u32>
        ensures value { result ≡ lowest_absent self.now needs }
        ensures lowest { Lowest self.now needs result }
    {
        let missing = needs & !self.present();
        if missing == 0 {
            None
        } else {
            Some(missing.trailing_zeros())
        }
    }
}
