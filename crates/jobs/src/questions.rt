//! What is asked of a job. A question changes nothing.
ghost use Rattle.std.specs.Prelude.{◌≡◌, ◌<◌, ◌≤◌, length, take, IfOk, OnOk};
ghost use Rattle.tables.specs.Table.{listed};
ghost use Rattle.sheets.specs.Laws.{Sound};
ghost use Rattle.sheets.specs.Sheet.{Lawful, answered};
ghost use Rattle.jobs.specs.Questions.{answers_of, answers_refusal, sheet_of, list_after};

use crate::job::Job;
use editions::edition::{Answers, Edition};
use editions::period::used_period;
use faults::fault::{Cause, Fault, Layer};
use records::levels::total_weight;
use sheets::line::{Line, Totals};
use sheets::sheet::sheet_of;

/// The largest base shear that a sheet shows.
const MOST_SHEAR: u32 = 1_000_000;

impl<E: Edition> Job<E> {
    /// How many levels the building has.
    pub fn level_count(&self) -> usize
        ensures count { result ≡ length (listed self.now.building.levels) }
        ensures most { result ≤ 64 }
    {
        self.building.levels.len()
    }

    /// What the edition answers for the job's figures. It refuses a job with no level, then the lowest absent setting that the
    /// edition needs, then a base shear above what a sheet shows.
    pub fn answers(&self) -> Result<Answers, Fault>
        ensures answer { result ≡ answered (answers_refusal E.NEEDS (E.meaning self.now.edition) self.now.building) (answers_of (E.meaning self.now.edition) self.now.building) }
        ensures lawful { IfOk result Lawful }
        ensures some { OnOk result (0 < length (listed self.now.building.levels)) }
    {
        let settings = &self.building.settings;
        let levels = &self.building.levels;
        if levels.len() == 0 {
            return Err(Fault::new(Layer::Sheet, Cause::NoLevels, 0));
        }
        if let Some(number) = settings.lowest_absent(E::NEEDS) {
            return Err(Fault::new(Layer::Sheet, Cause::SettingAbsent, number));
        }
        let answers = self
            .edition
            .answers(settings, total_weight(levels), used_period(settings));
        if answers.shear > MOST_SHEAR {
            return Err(Fault::new(Layer::Sheet, Cause::ShearLimit, answers.shear));
        }
        Ok(answers)
    }

    /// The job's sheet: its totals, and its lines at the front of `lines`, roof first. It refuses as `answers` does, then the
    /// lowest level whose force cannot be told to within two units, then a list that is too short. A refusal writes nothing.
    pub fn sheet(&self, lines: &mut [Line]) -> Result<Totals, Fault>
        ensures answer { result ≡ sheet_of E.NEEDS (E.meaning self.now.edition) self.now.building (length lines.old) }
        ensures lines { lines.new ≡ list_after E.NEEDS (E.meaning self.now.edition) self.now.building lines.old }
        ensures laws { IfOk result (λ t. Sound (answers_of (E.meaning self.now.edition) self.now.building) (listed self.now.building.levels) t (take (length (listed self.now.building.levels)) lines.new)) }
    {
        let answers = self.answers()?;
        sheet_of(answers, &self.building.levels, lines)
    }
}
