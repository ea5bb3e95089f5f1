//! Numbers in decimal.
ghost use Rattle.std.specs.Prelude.{◌≡◌, ℕ, MatchOption};
ghost use Rattle.text_bytes.specs.Numbers.{number_in, Number};

/// The most digits that a number may have; so many always fit 32 bits.
const MOST_DIGITS: usize = 9;

/// The number that one to nine digits write, and nothing for any other word.
pub fn read_number(word: &[u8]) -> Option<u32>
    ensures value { result ≡ number_in word.now }
    ensures reads { MatchOption result ((n : ℕ) → Number n word.now → ⊥) (λ n. Number n word.now) }
{
    if word.is_empty() || word.len() > MOST_DIGITS {
        return None;
    }
    // a digit at a time: `from_str_radix`, after a test of the digits and of the text, took twice as long
    let mut number: u32 = 0;
    for b in word {
        number = number * 10 + char::from(*b).to_digit(10)?;
    }
    Some(number)
}
