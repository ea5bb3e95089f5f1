//! Reads a deck from standard input and prints its listing, or the line of its fault.
#![tactic(auto)]

use anyhow::ensure;
use decks::answer::{LONGEST, ROOM, answer};
use std::io::{Read, Write};

/// Answers the deck on standard input. One byte more than the longest deck is read, so that a longer one is seen to be too long.
/// Ends with status 0 after a listing, and with status 1 after a fault.
fn main(rt: HostRuntime) -> anyhow::Result<()> {
    let mut deck = Vec::new(rt.alloc());
    rt.stdin().take(LONGEST as u64 + 1).read_to_end(&mut deck)?;
    // The engine writes at the front of its caller's buffer, by a rule of the project, and says how far.
    let mut out = [0u8; ROOM];
    let reply = answer(deck.as_slice(), &mut out);
    rt.stdout().write_all(&out[..reply.written])?;
    ensure!(reply.outcome.is_ok(), "the deck is refused");
    Ok(())
}
