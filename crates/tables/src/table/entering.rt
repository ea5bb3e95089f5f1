//! Entering and striking out records. A refusal alters nothing; else the table is written whole.
ghost use Rattle.std.specs.Prelude.{◌≡◌, true, Some, None, MatchOption, MatchResult};
ghost use Rattle.std.specs.Result.{result_err};
ghost use Rattle.tables.specs.Keys.{found, Full, Becomes, Entered, Struck};
ghost use Rattle.tables.specs.Refusals.{enter_refusal, none_refusal};
ghost use Rattle.tables.specs.Table.{listed};

use crate::keyed::Keyed;
use crate::table::Table;
use faults::fault::{Fault, Layer};

impl<R: Keyed, const N: usize> Table<R, N> {
    /// The table with `x` at its key, in place of what stood there; none if it is full and has nothing at that key.
    pub fn with(self, x: R) -> Option<Self>
        requires { R.fits x ≡ true }
        ensures { MatchOption result (Full R.key N (listed self) (R.key x)) (λ t. Entered R.key N (listed self) (listed t) x) }
    {
        match self.seek(x.key()) {
            Ok(i) => Some(Table {
                rows: self.rows.put_at(i, x),
            }),
            Err(i) if self.len() < N => Some(Table {
                rows: self.rows.insert_at(i, x),
            }),
            Err(_) => None,
        }
    }

    /// The table with nothing at the key `k`; none if nothing is there.
    pub fn without(self, k: u32) -> Option<Self>
        ensures { MatchOption result (found R.key (listed self) k ≡ None) (λ t. Struck R.key (listed self) (listed t) k) }
    {
        let i = self.seek(k).ok()?;
        Some(Table {
            rows: self.rows.remove_at(i),
        })
    }

    /// Enters a record, in place of the one at its key if there is one.
    pub fn enter(&mut self, x: R) -> Result<(), Fault>
        ensures refusal { result_err result ≡ enter_refusal R.key R.FULL R.figure_refusal N (listed self.old) x }
        ensures after { MatchResult result (λ _. Becomes R.key (listed self.old) (listed self.new) (R.key x) (Some x)) (λ _. self.new ≡ self.old) }
    {
        x.admit()?;
        let full = Fault::new(Layer::Tables, R::FULL, x.key());
        *self = self.with(x).ok_or(full)?;
        Ok(())
    }

    /// Strikes out the record at the key `k`.
    pub fn strike(&mut self, k: u32) -> Result<(), Fault>
        ensures refusal { result_err result ≡ none_refusal R.key R.ABSENT (listed self.old) k }
        ensures after { MatchResult result (λ _. Becomes R.key (listed self.old) (listed self.new) k None) (λ _. self.new ≡ self.old) }
    {
        let absent = Fault::new(Layer::Tables, R::ABSENT, k);
        *self = self.without(k).ok_or(absent)?;
        Ok(())
    }
}
