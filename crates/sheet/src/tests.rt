// Sheets of small grammars, counted by hand from the rules of the sheet.

use crate::build::build;
use crate::count::{count_steps, count_tops};
use crate::finish::finish;
use paper::Refusal;
use std::process::Abort;
use tables::Grammar;
use tables::input::Input;

const HOUSE: [u8; 36] = [
    0x01, 0x03, 0x01, 0x00, 0x11, 0x00, 0x03, 0x02, 0x00, 0x14, 0x00, 0x0E, 0x03, 0x00, 0x22, 0x00,
    0x02, 0x04, 0x03, 0x04, 0x03, 0x04, 0x02, 0x05, 0x06, 0x05, 0x03, 0x00, 0x01, 0x02, 0x06, 0x02,
    0x01, 0x03, 0x01, 0x02,
];

// One terminal, 0, and one nonterminal, 1. Its rule has no member ..
const NOTHING: [u8; 23] = [
    1, 3, 1, 0, 17, 0, 3, 2, 0, 20, 0, 3, 3, 0, 23, 0, 0, 1, 1, 1, 1, 1, 0,
];

// .. or itself as its only one ..
const ITSELF: [u8; 24] = [
    1, 3, 1, 0, 17, 0, 3, 2, 0, 20, 0, 4, 3, 0, 24, 0, 0, 1, 1, 1, 1, 1, 1, 1,
];

// .. or the terminal twice; or there are the first two rules.
const TWICE: [u8; 25] = [
    1, 3, 1, 0, 17, 0, 3, 2, 0, 20, 0, 5, 3, 0, 25, 0, 0, 1, 1, 1, 1, 1, 2, 0, 0,
];

const BOTH: [u8; 26] = [
    1, 3, 1, 0, 17, 0, 3, 2, 0, 20, 0, 6, 3, 0, 26, 0, 0, 1, 1, 1, 2, 1, 0, 1, 1, 1,
];

// The sheet of the row has so many entries, steps and tops.
fn expect_counts(
    rt: &impl Abort,
    image: &[u8],
    tokens: &[u8],
    entries: usize,
    steps: u64,
    tops: usize,
) {
    let Ok(grammar) = Grammar::admit(image) else {
        panic!(rt; "refused");
    };
    let Ok(input) = Input::new(&grammar, tokens) else {
        panic!(rt; "refused");
    };
    let mut words = [0; 11];
    let Ok(starts) = build(&input, &mut words) else {
        panic!(rt; "too many");
    };
    assert!(rt; tokens.len() <= 64);
    assert_eq!(rt; starts[tokens.len() + 1], entries);
    assert_eq!(rt; count_steps(&input, &words, &starts), steps);
    assert_eq!(rt; count_tops(&input, &words, &starts), tops);
}

#[test]
fn counts_small_sheets(rt: HostRuntime) {
    expect_counts(&rt, &HOUSE, &[3, 1, 1, 0, 2], 11, 11, 1);
    expect_counts(&rt, &HOUSE, &[], 3, 3, 0);
    expect_counts(&rt, &NOTHING, &[], 1, 1, 1);
    expect_counts(&rt, &ITSELF, &[], 1, 2, 0);
    expect_counts(&rt, &TWICE, &[0], 2, 2, 0);
    expect_counts(&rt, &TWICE, &[0, 0], 3, 3, 1);
    expect_counts(&rt, &BOTH, &[], 3, 6, 2);
}

#[test]
fn starts_the_lists_of_a_plate(rt: HostRuntime) {
    let Ok(grammar) = Grammar::admit(&HOUSE) else {
        panic!(rt; "refused");
    };
    let Ok(input) = Input::new(&grammar, &[3, 1, 1, 0, 2]) else {
        panic!(rt; "refused");
    };
    let mut words = [0; 11];
    let Ok(starts) = build(&input, &mut words) else {
        panic!(rt; "too many");
    };
    assert_eq!(rt; &starts[..8], [0, 3, 4, 7, 8, 9, 11, 0].as_slice());
    let Err(refusal) = build(&input, &mut words[..10]) else {
        panic!(rt; "built");
    };
    assert_eq!(rt; refusal, Refusal::FewWords);
}

#[test]
fn leaves_words_and_zeros(rt: HostRuntime) {
    let Ok(grammar) = Grammar::admit(&HOUSE) else {
        panic!(rt; "refused");
    };
    let Ok(input) = Input::new(&grammar, &[3, 1, 1, 0, 2]) else {
        panic!(rt; "refused");
    };
    let mut words = [u32::MAX; 13];
    let Ok(starts) = build(&input, &mut words) else {
        panic!(rt; "too many");
    };
    finish(&input, &mut words, &starts);
    let expected = [
        0x00003, 0x10007, 0x20003, 0x20001, 0x00001, 0x10207, 0x20000, 0x10205, 0x10204, 0x00000,
        0x10200, 0, 0,
    ];
    assert_eq!(rt; words.as_slice(), expected.as_slice());
}
