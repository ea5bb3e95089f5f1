//! The answer to a deck.
ghost use Rattle.std.specs.Prelude.{◌≡◌, ◌≤◌, length, drop};
ghost use Rattle.decks.specs.Answer.{Under, Comes, Listed, Answered};

use crate::desk::Desk;
use crate::listing::{put_fault, put_listing};
use crate::reply::Reply;
use editions::edition::Edition;
use editions::nehrp2003::Nehrp2003;
use faults::fault::{Cause, Fault, Layer};
use grammar::entry::{Published, Refusal};
use grammar::line::{malformed, read_edition};
use grammar::reading::read_entries;
use jobs::job::Job;
use sheets::line::Line;

/// The longest deck, in bytes.
pub const LONGEST: usize = 32_768;

/// The room that an answer wants, in bytes.
pub const ROOM: usize = 4_096;

/// Writes the listing of the lines after the edition, under that edition.
fn list_under<E: Edition + Drop>(
    edition: E,
    deck: &[u8],
    out: &mut [u8; ROOM],
) -> Result<usize, Refusal>
    requires { length deck.now ≤ 32768 }
    ensures { Listed (Under E.NEEDS E.meaning edition deck.now) out.old out.new result }
{
    let mut desk = Desk {
        job: Job::new(edition),
    };
    let line = read_entries(deck, &mut desk)?;
    // An array and not a list: by a rule of the project no call allocates, and a sheet goes to the front of its caller's lines.
    let mut lines = [Line::default(); 64];
    let totals = desk
        .job
        .sheet(&mut lines)
        .map_err(|fault| Refusal { fault, line })?;
    let count = desk.job.level_count();
    Ok(put_listing(out, totals, &lines[0..count]))
}

/// Writes the listing of a deck.
fn list(deck: &[u8], out: &mut [u8; ROOM]) -> Result<usize, Refusal>
    ensures { Listed (Comes deck.now) out.old out.new result }
{
    if deck.len() > LONGEST {
        return Err(Refusal {
            fault: malformed(),
            line: 0,
        });
    }
    let (published, rest) = read_edition(deck).map_err(|fault| Refusal { fault, line: 1 })?;
    match published {
        Published::Nehrp2003 => list_under(Nehrp2003, rest, out),
    }
}

/// Answers a deck: writes its listing, or the line of its first fault, at the front of `out`, and leaves the rest of `out` as it
/// was. A buffer of less than 4,096 bytes is refused, and nothing is written.
pub fn answer(deck: &[u8], out: &mut [u8]) -> Reply
    ensures answered { Answered deck.now out.old out.new result }
    ensures bound { result.written ≤ length out.old }
    ensures kept { drop result.written out.new ≡ drop result.written out.old }
{
    let Some(page) = out.first_chunk_mut::<ROOM>() else {
        let fault = Fault::new(Layer::Deck, Cause::ListShort, ROOM as u32);
        return Reply {
            written: 0,
            outcome: Err(Refusal { fault, line: 0 }),
        };
    };
    match list(deck, page) {
        Ok(written) => Reply {
            written,
            outcome: Ok(()),
        },
        Err(refusal) => Reply {
            written: put_fault(page, refusal),
            outcome: Err(refusal),
        },
    }
}
