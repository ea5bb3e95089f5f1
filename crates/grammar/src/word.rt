//! The words of a deck.
ghost use Rattle.std.specs.Prelude.{◌≡◌};
ghost use Rattle.grammar.specs.Words.{word_of, spelling as spelling_of, arity as arity_of};

/// The word that a line begins with.
#[derive(Clone, Copy, Debug, PartialEq, Eq)]
pub enum Word {
    Edition,
    Set,
    Level,
    Drop,
    Sheet,
}

// A table that is searched, and no `TryFrom`: a conversion by a trait would want an error type of its own, which every caller would
// turn into the one fault.
impl Word {
    const ALL: [Word; 5] = [
        Word::Edition,
        Word::Set,
        Word::Level,
        Word::Drop,
        Word::Sheet,
    ];

    /// How the word is spelt.
    fn spelling(self) -> &'static [u8]
        ensures { result.now ≡ spelling_of self }
    {
        match self {
            Word::Edition => b"EDITION",
            Word::Set => b"SET",
            Word::Level => b"LEVEL",
            Word::Drop => b"DROP",
            Word::Sheet => b"SHEET",
        }
    }

    /// Which word a text is.
    pub fn of(text: &[u8]) -> Option<Word>
        ensures { result ≡ word_of text.now }
    {
        Word::ALL
            .iter()
            .find(|word| text == word.spelling())
            .copied()
    }

    /// How many numbers come after the word.
    pub fn arity(self) -> usize
        ensures { result ≡ arity_of self }
    {
        match self {
            Word::Edition | Word::Drop => 1,
            Word::Set => 2,
            Word::Level => 3,
            Word::Sheet => 0,
        }
    }
}
