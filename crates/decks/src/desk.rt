//! The desk hands a deck's entries to a job.
ghost use Rattle.decks.specs.Desk.{Enters};

use editions::edition::Edition;
use faults::fault::Fault;
use grammar::entry::Entry;
use grammar::reading::Takes;
use jobs::job::Job;

/// A job that a deck is read into.
#[derive(Drop)]
pub struct Desk<E> {
    pub(crate) job: Job<E>,
}

impl<E: Edition> Takes for Desk<E> {
    ghost takes = { Enters };

    fn take(&mut self, entry: Entry) -> Result<(), Fault> {
        match entry {
            Entry::Set { number, value } => self.job.set(number, value),
            Entry::Level {
                height,
                weight,
                gravity,
            } => self.job.enter_level(height, weight, gravity),
            Entry::Drop { height } => self.job.drop_level(height),
        }
    }
}
