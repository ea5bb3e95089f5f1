//! Reading one line.
ghost use Rattle.std.specs.Prelude.{◌≡◌, true, false, Some, None, Ok, Err, Option, MatchResult};
ghost use Rattle.text_bytes.specs.Pieces.{has, before, after};
ghost use Rattle.grammar.specs.Lines.{malformed as malformed_of, misread as misread_of, number_at, edition_at, word_in, Split, edition_in, placed, entry_from, entry_in, edition_line, entry_line, Reads};

use crate::entry::{Entry, Published};
use crate::word::Word;
use faults::fault::{Cause, Fault, Layer};
use text_bytes::cut::cut_at;
use text_bytes::fields::{Fields, split_line};
use text_bytes::number::read_number;

/// A wrong word, position, ending or number of fields.
pub fn malformed() -> Fault
    ensures { result ≡ malformed_of }
{
    Fault::new(Layer::Deck, Cause::LineMalformed, 0)
}

/// A field that is no number or no edition.
fn misread(place: u32) -> Fault
    ensures { result ≡ misread_of place }
{
    Fault::new(Layer::Deck, Cause::FieldMalformed, place)
}

/// The number in a line's field, of which the word is the first.
fn number_at(text: &[u8], place: u32) -> Result<u32, Fault>
    ensures { result ≡ number_at place text.now }
{
    read_number(text).ok_or(misread(place))
}

/// The edition that a line's field names.
fn edition_at(text: &[u8], place: u32) -> Result<Published, Fault>
    ensures { result ≡ edition_at place text.now }
{
    let number = number_at(text, place)?;
    Published::try_from(number).map_err(|_| misread(place))
}

/// The word of a line, without its ending, that has as many fields as the word takes, and the fields.
fn word_in(line: &[u8]) -> Result<(Word, Fields<'_>), Fault>
    ensures { MatchResult result (λ p. (word_in line.now ≡ Ok p.0) × Split line.now p.1) (λ f. word_in line.now ≡ Err f) }
{
    let fields = split_line(line);
    match Word::of(fields.word) {
        Some(word) if fields.count == word.arity() => Ok((word, fields)),
        _ => Err(malformed()),
    }
}

/// The edition that the first line names, without its ending.
fn edition_in(line: &[u8]) -> Result<Published, Fault>
    ensures { result ≡ edition_in line.now }
{
    match word_in(line)? {
        (Word::Edition, fields) => edition_at(fields.first, 2),
        _ => Err(malformed()),
    }
}

/// Whether a word may stand on a line after the first: the edition on none, the sheet on the last.
fn may_stand(word: Word, last: bool) -> bool
    ensures { result ≡ placed last word }
{
    match word {
        Word::Edition => false,
        Word::Set | Word::Level | Word::Drop => true,
        Word::Sheet => last,
    }
}

/// The entry of a line whose word and number of fields are right, and none for the sheet.
fn entry_of(word: Word, fields: Fields<'_>) -> Result<Option<Entry>, Fault>
    ensures { result ≡ entry_from word fields.entry.first.now fields.entry.second.now fields.entry.third.now }
{
    match word {
        Word::Set => {
            let number = number_at(fields.first, 2)?;
            let value = number_at(fields.second, 3)?;
            Ok(Some(Entry::Set { number, value }))
        }
        Word::Level => {
            let height = number_at(fields.first, 2)?;
            let weight = number_at(fields.second, 3)?;
            let gravity = number_at(fields.third, 4)?;
            Ok(Some(Entry::Level {
                height,
                weight,
                gravity,
            }))
        }
        Word::Drop => {
            let height = number_at(fields.first, 2)?;
            Ok(Some(Entry::Drop { height }))
        }
        Word::Edition | Word::Sheet => Ok(None),
    }
}

/// The entry of a line after the first, without its ending, and none for the sheet.
fn entry_in(line: &[u8], last: bool) -> Result<Option<Entry>, Fault>
    ensures { result ≡ entry_in last line.now }
{
    let (word, fields) = word_in(line)?;
    if may_stand(word, last) {
        entry_of(word, fields)
    } else {
        Err(malformed())
    }
}

/// The next line, without its ending, and the lines after it.
fn next_line(deck: &[u8]) -> Result<(&[u8], &[u8]), Fault>
    ensures { MatchResult result (λ p. (has 10 deck.now ≡ true) × (p.0.now ≡ before 10 deck.now) × (p.1.now ≡ after 10 deck.now)) (λ f. (has 10 deck.now ≡ false) × (f ≡ malformed_of)) }
{
    cut_at(deck, b'\n').ok_or(malformed())
}

/// The edition of a deck's first line, and the lines after it.
pub fn read_edition(deck: &[u8]) -> Result<(Published, &[u8]), Fault>
    ensures { MatchResult result (λ p. edition_line deck.now ≡ Ok (p.0, p.1.now)) (λ f. edition_line deck.now ≡ Err f) }
{
    let (line, rest) = next_line(deck)?;
    let edition = edition_in(line)?;
    Ok((edition, rest))
}

/// The entry of the next line, and the lines after it; none where the line is the sheet, which is last.
pub fn read_entry(deck: &[u8]) -> Result<Option<(Entry, &[u8])>, Fault>
    ensures { MatchResult result (Reads deck.now) (λ f. entry_line deck.now ≡ Err f) }
{
    let (line, rest) = next_line(deck)?;
    let entry = entry_in(line, rest.is_empty())?;
    Ok(entry.map(|entry| (entry, rest)))
}
