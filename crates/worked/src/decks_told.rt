//! Decks and what they are told, byte for byte.
use decks::answer::{ROOM, answer};
use faults::fault::{Cause, Fault, Layer};
use grammar::entry::Refusal;

/// The first job, its listing, and the same settings over levels whose forces cannot be told and over levels too heavy for a sheet.
const SHEETS: [(&str, &str); 3] = [
    (
        "EDITION 1\nSET 0 800\nSET 1 100\nSET 2 500\nSET 3 400\nSET 4 140\nSET 5 20\nSET 6 0\nSET 7 1000\nSET 8 600\nSET 9 500\nSET 10 4000\nSET 11 550\nSET 12 100\nLEVEL 4000 5000 6000\nLEVEL 8000 5000 6000\nLEVEL 12000 4000 6000\nSHEET\n",
        "LEVEL FORCE SHEAR MOMENT\n12000 777 777 0\n8000 648 1425 3108000\n4000 325 1750 8808000\nBASE 0 1750 15808000\n",
    ),
    (
        "EDITION 1\nSET 0 800\nSET 1 100\nSET 2 500\nSET 3 400\nSET 4 140\nSET 5 20\nSET 6 0\nSET 7 1000\nSET 8 600\nSET 9 500\nSET 10 4000\nSET 11 550\nSET 12 100\nLEVEL 1 60000 1\nLEVEL 500000 1 1\nSHEET\n",
        "FAULT 17 1 2 17\n",
    ),
    (
        "EDITION 1\nSET 0 100\nSET 1 150\nSET 2 1\nSET 3 1\nSET 4 100\nSET 5 20\nSET 6 0\nSET 7 4000\nSET 8 600\nSET 9 500\nSET 10 4000\nSET 11 550\nSET 12 100\nLEVEL 1 60000 1\nLEVEL 2 60000 1\nLEVEL 3 60000 1\nSHEET\n",
        "FAULT 16 1080000 2 18\n",
    ),
];

/// Faults of settings, levels and the sheet.
const CALLS: [(&str, &str); 15] = [
    ("EDITION 1\nSHEET\n", "FAULT 14 0 2 2\n"),
    ("EDITION 1\nLEVEL 1 1 1\nSHEET\n", "FAULT 15 0 2 3\n"),
    ("EDITION 1\nSET 16 1\n", "FAULT 6 16 1 2\n"),
    ("EDITION 1\nSET 15 1000\nSET 15 1001\n", "FAULT 7 15 1 3\n"),
    (
        "EDITION 1\nSET 6 0\nSET 0 100\nSET 0 99\n",
        "FAULT 7 0 1 4\n",
    ),
    ("EDITION 1\nLEVEL 0 0 0\n", "FAULT 1 0 1 2\n"),
    ("EDITION 1\nLEVEL 500001 1 1\n", "FAULT 1 500001 1 2\n"),
    ("EDITION 1\nLEVEL 500000 0 0\n", "FAULT 2 0 1 2\n"),
    ("EDITION 1\nLEVEL 1 60001 1\n", "FAULT 2 60001 1 2\n"),
    ("EDITION 1\nLEVEL 1 60000 0\n", "FAULT 3 0 1 2\n"),
    (
        "EDITION 1\nLEVEL 1 1 200000\nLEVEL 2 1 200001\n",
        "FAULT 3 200001 1 3\n",
    ),
    ("EDITION 1\nDROP 7\n", "FAULT 5 7 1 2\n"),
    (
        "EDITION 1\nLEVEL 7 1 1\nDROP 7\nDROP 7\n",
        "FAULT 5 7 1 4\n",
    ),
    (
        "EDITION 1\nLEVEL 7 1 1\nDROP 7\nSHEET\n",
        "FAULT 14 0 2 4\n",
    ),
    ("EDITION 1\nSET 0 000000800\nSHEET\n", "FAULT 14 0 2 3\n"),
];

/// Lines with a wrong word, position, ending or number of fields, and fields that are no number or no edition.
const LINES: [(&str, &str); 20] = [
    ("", "FAULT 24 0 5 1\n"),
    ("\n", "FAULT 24 0 5 1\n"),
    ("EDITION 1", "FAULT 24 0 5 1\n"),
    ("edition 1\n", "FAULT 24 0 5 1\n"),
    ("EDITION 1 1\n", "FAULT 24 0 5 1\n"),
    ("SET 0 800\n", "FAULT 24 0 5 1\n"),
    ("SHEET\n", "FAULT 24 0 5 1\n"),
    ("EDITION 1\n", "FAULT 24 0 5 2\n"),
    ("EDITION 1\nEDITION 1\n", "FAULT 24 0 5 2\n"),
    ("EDITION 1\nSHEET", "FAULT 24 0 5 2\n"),
    ("EDITION 1\nSHEET\nSHEET\n", "FAULT 24 0 5 2\n"),
    ("EDITION 1\nSET 0\n", "FAULT 24 0 5 2\n"),
    ("EDITION 1\nSET 0  800\n", "FAULT 24 0 5 2\n"),
    ("EDITION 1\nLEVEL 1 1 1 1\n", "FAULT 24 0 5 2\n"),
    ("EDITION one\n", "FAULT 25 2 5 1\n"),
    ("EDITION 3\n", "FAULT 25 2 5 1\n"),
    ("EDITION 1\nSET 0x 800\n", "FAULT 25 2 5 2\n"),
    ("EDITION 1\nSET 0 0000000800\n", "FAULT 25 3 5 2\n"),
    ("EDITION 1\nLEVEL 1 1 -1\n", "FAULT 25 4 5 2\n"),
    ("EDITION 1\nLEVEL 1  1\n", "FAULT 25 3 5 2\n"),
];

/// Whether the answer to a deck is these bytes.
fn tells(deck: &str, told: &str) -> bool {
    let mut out = [0u8; ROOM];
    let reply = answer(deck.as_bytes(), &mut out);
    let written = reply.written;
    &out[0..written] == told.as_bytes()
}

/// The first deck whose answer is not what stands beside it.
fn told_otherwise<'a>(cases: &[(&'a str, &'a str)]) -> Option<&'a str> {
    cases
        .iter()
        .find(|(deck, told)| !tells(deck, told))
        .map(|(deck, _)| *deck)
}

#[test]
fn sheets(rt: HostRuntime) {
    assert_eq!(rt; told_otherwise(&SHEETS), None);
}

#[test]
fn calls(rt: HostRuntime) {
    assert_eq!(rt; told_otherwise(&CALLS), None);
}

#[test]
fn lines(rt: HostRuntime) {
    assert_eq!(rt; told_otherwise(&LINES), None);
}

#[test]
fn short_buffer(rt: HostRuntime) {
    let mut out = [7u8; 4_095];
    let reply = answer(b"EDITION 1\nSHEET\n", &mut out);
    assert!(rt; reply.written == 0 && out[0] == 7);
    let fault = Fault {
        cause: Cause::ListShort,
        place: 4_096,
        layer: Layer::Deck,
    };
    assert!(rt; reply.outcome == Err(Refusal { fault, line: 0 }));
}
