//! Texts and numbers written into a buffer, one after another.
ghost use Rattle.std.specs.Prelude.{◌+◌, ◌≤◌, [], ◌∷◌, ◌++◌, length};
ghost use Rattle.text_bytes.specs.Writing.{Room, Writes};

use itoa::{Buffer, Integer};

// No `Display`: `write!` promises its text where it answers `Ok`, and no clause says when it does, while a deck is always answered.
// The buffer is the caller's, by a rule of the project, so the place in it stands beside it.
/// A buffer, and where the next text goes in it.
#[derive(Drop)]
pub struct Writer<'a> {
    pub out: &'a mut [u8],
    pub at: usize,
}

impl<'a> Writer<'a> {
    /// Writes `text`.
    pub fn put_bytes(&mut self, text: &[u8])
        requires { Room self.old (length text.now) }
        ensures { Writes self.old text.now self.new }
    {
        let end = self.at + text.len();
        self.out[self.at..end].copy_from_slice(text);
        self.at = end;
    }

    /// Writes `n` in decimal and then the byte `mark`.
    pub fn put_number<I: Integer>(&mut self, n: I, mark: u8)
        requires { Room self.old (I.MAX_STR_LEN + 1) }
        ensures writes { Writes self.old (I.text n ++ (mark ∷ [])) self.new }
        ensures bound { self.new.at ≤ self.old.at + (I.MAX_STR_LEN + 1) }
    {
        let mut buffer = Buffer::new();
        let digits = buffer.format(n).as_bytes();
        self.put_bytes(digits);
        self.put_bytes(&[mark]);
    }
}
