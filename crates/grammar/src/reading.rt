//! Reading the lines after the edition, up to the sheet.
ghost use Rattle.std.specs.Prelude.{◌≤◌, List, length, Option};
ghost use Rattle.std.specs.Result.{result_err};
ghost use Rattle.faults.specs.declared.fault.Fault.{Fault};
ghost use Rattle.grammar.specs.declared.entry.Entry.{Entry};
ghost use Rattle.grammar.specs.Reading.{Steps, Handed};

use crate::entry::{Entry, Refusal};
use crate::line::read_entry;
use faults::fault::Fault;

// A trait and not a closure: whoever makes a closure learns what it changes in the job that it borrows only by an invariant on the
// closure's captures, which is no plainer than this ghost member.
/// What a deck's entries are handed to.
pub trait Takes {
    // the state before, the entry, the fault if it was refused, and the state after
    ghost takes: { Self → Entry → Option Fault → Self → Type 0 };

    fn take(&mut self, entry: Entry) -> Result<(), Fault>
        ensures { takes self.old entry (result_err result) self.new };
}

/// Hands over the entry of the next line, and answers the lines after it; none at the sheet.
fn step<'a, T: Takes>(deck: &'a [u8], taker: &mut T) -> Result<Option<&'a [u8]>, Fault>
    ensures { Steps T.Takes.takes deck.now taker.old result taker.new }
{
    let Some((entry, rest)) = read_entry(deck)? else {
        return Ok(None);
    };
    taker.take(entry)?;
    Ok(Some(rest))
}

/// Hands the entries over, line by line from line 2 on, and answers the line of the sheet.
pub fn read_entries<T: Takes>(deck: &[u8], taker: &mut T) -> Result<u32, Refusal>
    requires { length deck.now ≤ 32768 }
    ensures { (es : List Entry) × Handed T.Takes.takes 2 deck.now taker.old es result taker.new }
{
    let mut rest = deck;
    let mut line: u32 = 2;
    // `for line in 2..` would have to say that its end is never reached; the label is the loop's name in its proof
    'lines: while let Some(after) = step(rest, taker).map_err(|fault| Refusal { fault, line })? {
        rest = after;
        line += 1;
    }
    Ok(line)
}
