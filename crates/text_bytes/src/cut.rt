//! Bytes cut at a mark.
ghost use Rattle.std.specs.Prelude.{◌≡◌, ◌==◌, true, false, length, position, MatchOption};
ghost use Rattle.text_bytes.specs.Pieces.{has, before, after, others};

/// Where the first `mark` stands.
fn first(text: &[u8], mark: u8) -> Option<usize>
    ensures { result ≡ position (λ b. b == mark) text.now }
{
    text.iter().position(|b| *b == mark)
}

/// What stands before the first `mark`, and what comes after it.
pub fn cut_at(text: &[u8], mark: u8) -> Option<(&[u8], &[u8])>
    ensures { MatchOption result (has mark text.now ≡ false) (λ p. (has mark text.now ≡ true) × (p.0.now ≡ before mark text.now) × (p.1.now ≡ after mark text.now)) }
{
    let at = first(text, mark)?;
    Some((&text[..at], &text[at + 1..]))
}

/// How often `mark` stands in `text`.
pub(crate) fn count(text: &[u8], mark: u8) -> usize
    ensures { result ≡ length (others mark text.now) }
{
    text.iter().map(|b| usize::from(*b == mark)).sum()
}
