//! The bytes of a listing and of a fault.
ghost use Rattle.std.specs.Prelude.{◌≡◌, ◌+◌, ◌*◌, ◌≤◌, length};
ghost use Rattle.text_bytes.specs.Writing.{Room, Writes};
ghost use Rattle.text_bytes.specs.Wrote.{Puts};
ghost use Rattle.decks.specs.Listing.{line_bytes, lines_bytes, base_bytes, listing as listing_bytes, fault_bytes};

use crate::answer::ROOM;
use grammar::entry::Refusal;
use sheets::line::{Line, Totals};
use text_bytes::put::Writer;

// No `Display`: `write!` promises its text where it answers `Ok`, and no clause says when it does, while a deck is always answered.

/// Writes a level's line: height, force, shear and moment.
fn put_line(writer: &mut Writer<'_>, line: Line)
    requires { Room writer.old 54 }
    ensures writes { Writes writer.old (line_bytes line) writer.new }
    ensures bound { writer.new.at ≤ writer.old.at + 54 }
{
    writer.put_number(line.height, b' ');
    writer.put_number(line.force, b' ');
    writer.put_number(line.shear, b' ');
    writer.put_number(line.moment, b'\n');
}

/// Writes a line for each level.
fn put_lines(writer: &mut Writer<'_>, lines: &[Line])
    requires { Room writer.old (54 * length lines.now) }
    ensures writes { Writes writer.old (lines_bytes lines.now) writer.new }
    ensures bound { writer.new.at ≤ writer.old.at + 54 * length lines.now }
{
    for line in lines {
        put_line(writer, *line);
    }
}

/// Writes the base's line: 0, the base shear and the moment at the base.
fn put_base(writer: &mut Writer<'_>, totals: Totals)
    requires { Room writer.old 39 }
    ensures { Writes writer.old (base_bytes totals) writer.new }
{
    writer.put_bytes(b"BASE 0 ");
    writer.put_number(totals.shear, b' ');
    writer.put_number(totals.moment, b'\n');
}

/// Writes a sheet's listing at the front of the buffer, and answers where it ends.
pub(crate) fn put_listing(out: &mut [u8; ROOM], totals: Totals, lines: &[Line]) -> usize
    requires { length lines.now ≤ 64 }
    ensures { Puts out.old 0 (listing_bytes totals lines.now) out.new result }
{
    let mut writer = Writer { out, at: 0 };
    writer.put_bytes(b"LEVEL FORCE SHEAR MOMENT\n");
    put_lines(&mut writer, lines);
    put_base(&mut writer, totals);
    writer.at
}

/// Writes a refusal's line at the front of the buffer, and answers where it ends: cause, place, layer and line.
pub(crate) fn put_fault(out: &mut [u8; ROOM], refusal: Refusal) -> usize
    ensures puts { Puts out.old 0 (fault_bytes refusal) out.new result }
    ensures long { length out.new ≡ 4096 }
{
    let fault = refusal.fault;
    let mut writer = Writer { out, at: 0 };
    writer.put_bytes(b"FAULT ");
    writer.put_number(fault.cause.number(), b' ');
    writer.put_number(fault.place, b' ');
    writer.put_number(fault.layer.number(), b' ');
    writer.put_number(refusal.line, b'\n');
    writer.at
}
