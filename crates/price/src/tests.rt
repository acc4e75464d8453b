// The price of the house grammar, and of one rule with two equal members.

use super::*;
use std::process::Abort;

const HOUSE: [u8; 36] = [
    0x01, 0x03, 0x01, 0x00, 0x11, 0x00, 0x03, 0x02, 0x00, 0x14, 0x00, 0x0E, 0x03, 0x00, 0x22, 0x00,
    0x02, 0x04, 0x03, 0x04, 0x03, 0x04, 0x02, 0x05, 0x06, 0x05, 0x03, 0x00, 0x01, 0x02, 0x06, 0x02,
    0x01, 0x03, 0x01, 0x02,
];

// Symbol 1 is twice symbol 0.
const TWICE: [u8; 25] = [
    1, 3, 1, 0, 17, 0, 3, 2, 0, 20, 0, 5, 3, 0, 25, 0, 0, 1, 1, 1, 1, 1, 2, 0, 0,
];

// The price has these rests, entries, steps and lines.
fn expect_price(rt: &impl Abort, image: &[u8], n: usize, bounds: [u64; 4]) {
    let Ok(found) = price(image, n) else {
        panic!(rt; "refused");
    };
    assert_eq!(rt; found.rests, bounds[0]);
    assert_eq!(rt; found.entries, bounds[1]);
    assert_eq!(rt; found.steps, bounds[2]);
    assert_eq!(rt; found.lines, bounds[3]);
}

#[test]
fn prices_the_house_grammar(rt: HostRuntime) {
    expect_price(&rt, &HOUSE, 5, [16, 336, 4035, 45]);
    expect_price(&rt, &HOUSE, 0, [16, 16, 115, 3]);
}

#[test]
fn counts_equal_members_together(rt: HostRuntime) {
    expect_price(&rt, &TWICE, 1, [3, 9, 31, 3]);
}

#[test]
fn refuses_a_long_row(rt: HostRuntime) {
    let Err(refusal) = price(&HOUSE, 65) else {
        panic!(rt; "priced");
    };
    assert_eq!(rt; refusal, Refusal::LongRow);
}
