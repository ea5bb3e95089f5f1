//! A line's fields, parted by one space.
ghost use Rattle.std.specs.Prelude.{◌≡◌, [], length, slice_index_or};
ghost use Rattle.text_bytes.specs.Pieces.{before, after, others};

use crate::cut::{count, cut_at};

/// A line's fields: the word, how many come after it, and the first three of those.
#[derive(Clone, Copy, PartialEq, Eq, Debug)]
pub struct Fields<'a> {
    // The count stands beside the first three: an array of those would need it as well, since a line may have any number of fields.
    pub word: &'a [u8],
    pub count: usize,
    pub first: &'a [u8],
    pub second: &'a [u8],
    pub third: &'a [u8],
}

/// The first field of `text`, and the fields after it.
fn split_field(text: &[u8]) -> (&[u8], &[u8])
    ensures { (result.0.now ≡ before 32 text.now) × (result.1.now ≡ after 32 text.now) }
{
    cut_at(text, b' ').unwrap_or((text, &[]))
}

/// The fields of a line without its ending.
#[tactic(auto, using(crate::proofs::Cuts::first_other, crate::proofs::Cuts::next_other))]
pub fn split_line(line: &[u8]) -> Fields<'_>
    ensures word { result.word.now ≡ before 32 line.now }
    ensures count { result.count ≡ length (others 32 line.now) }
    ensures first { result.first.now ≡ slice_index_or (others 32 line.now) 0 [] }
    ensures second { result.second.now ≡ slice_index_or (others 32 line.now) 1 [] }
    ensures third { result.third.now ≡ slice_index_or (others 32 line.now) 2 [] }
{
    let (word, rest) = split_field(line);
    let (first, rest) = split_field(rest);
    let (second, rest) = split_field(rest);
    let (third, _) = split_field(rest);
    Fields {
        word,
        count: count(line, b' '),
        first,
        second,
        third,
    }
}
