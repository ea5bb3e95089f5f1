//! The making of a sheet.
ghost use Rattle.std.specs.Prelude.{◌≡◌, ◌<◌, length, take, IfOk};
ghost use Rattle.tables.specs.Table.{listed};
ghost use Rattle.sheets.specs.Bearings.{Falling, bearings};
ghost use Rattle.sheets.specs.Laws.{Sound};
ghost use Rattle.sheets.specs.Sheet.{Lawful, answer as answer_of, after as list_after};

use crate::bearing::{Bearing, from_roof};
use crate::layout::Layout;
use crate::line::{Line, Totals};
use editions::edition::Answers;
use faults::fault::{Cause, Fault, Layer};
use records::levels::Levels;

/// The sheet of these bearers: its totals, and its lines at the front of `lines`.
fn lay_out(answers: Answers, bearers: &[Bearing], lines: &mut [Line]) -> Result<Totals, Fault>
    requires lawful { Lawful answers }
    requires falling { Falling bearers.now }
    ensures answer { result ≡ answer_of answers bearers.now (length lines.old) }
    ensures lines { lines.new ≡ list_after answers bearers.now lines.old }
{
    let layout = Layout::of(answers, bearers);
    if let Some(height) = layout.lowest_uncertain() {
        return Err(Fault::new(Layer::Sheet, Cause::ForceUncertain, height));
    }
    if lines.len() < bearers.len() {
        return Err(Fault::new(Layer::Sheet, Cause::ListShort, bearers.len() as u32));
    }
    // room for the most levels, of which a part is lent that is as long as the bearers: `share_within` fills a slice that is there, so
    // an `ArrayVec` would first be filled with zeros
    let mut room = [0u32; 64];
    let forces = &mut room[..bearers.len()];
    layout.put_forces(forces);
    let moment = layout.write_lines(forces, lines);
    Ok(Totals {
        shear: answers.shear,
        moment,
    })
}

// `Lawful` stays a clause: a job promises it of the answers that it gives out, and the type that said it would be the same figures again.

/// The sheet of a table of levels that is not empty: its totals, and its lines at the front of `lines`, roof first. It refuses
/// the lowest level whose force cannot be told to within two units, and then a list that is too short. A refusal writes nothing.
pub fn sheet_of(answers: Answers, levels: &Levels, lines: &mut [Line]) -> Result<Totals, Fault>
    requires lawful { Lawful answers }
    requires some { 0 < length (listed levels.now) }
    ensures answer { result ≡ answer_of answers (bearings answers.exponent (listed levels.now)) (length lines.old) }
    ensures lines { lines.new ≡ list_after answers (bearings answers.exponent (listed levels.now)) lines.old }
    ensures laws { IfOk result (λ t. Sound answers (listed levels.now) t (take (length (listed levels.now)) lines.new)) }
{
    let row = from_roof(levels.as_slice(), answers.exponent);
    lay_out(answers, row.as_slice(), lines)
}
