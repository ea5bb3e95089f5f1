//! What a deck's answer is.
use grammar::entry::Refusal;

/// So many bytes at the front of the buffer: a listing, or the line of the refusal.
#[derive(Clone, Copy, PartialEq, Eq, Debug)]
pub struct Reply {
    // The bytes stand in the caller's buffer, by a rule of the project, so the answer says how far.
    pub written: usize,
    pub outcome: Result<(), Refusal>,
}
