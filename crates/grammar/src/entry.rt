//! What the lines of a deck hold.
ghost use Rattle.grammar.specs.Editions.{Names};

use faults::fault::Fault;

/// An edition that a deck may name.
#[derive(Clone, Copy, Debug, PartialEq, Eq)]
pub enum Published {
    Nehrp2003,
}

/// A number that no edition has.
#[derive(Clone, Copy, Debug, PartialEq, Eq)]
pub struct UnknownEdition(pub u32);

impl TryFrom<u32> for Published {
    type Error = UnknownEdition;

    ghost try_from_gives = { Names };

    fn try_from(number: u32) -> Result<Self, UnknownEdition> {
        match number {
            1 => Ok(Published::Nehrp2003),
            _ => Err(UnknownEdition(number)),
        }
    }
}

/// What a line between the edition and the sheet enters.
#[derive(Clone, Copy, Debug, PartialEq, Eq)]
pub enum Entry {
    // By number, a rule of the project: a number that is no setting's is refused by the job, with its number as the place, and not
    // by the grammar.
    Set {
        number: u32,
        value: u32,
    },
    Level {
        height: u32,
        weight: u32,
        gravity: u32,
    },
    Drop {
        height: u32,
    },
}

/// A fault, and the line of the deck that it belongs to.
#[derive(Clone, Copy, Debug, PartialEq, Eq)]
pub struct Refusal {
    pub fault: Fault,
    pub line: u32,
}
