// The lines of the plate `3 1 1 0 2`, whose bracket is `(0(2 3 1)(1 1 0 2))`, and some that are at fault.

use crate::bracket::bracket;
use crate::calls::check;
use crate::view::{view, view_number, view_refusal};
use paper::Refusal;

const HOUSE: [u8; 36] = [
    0x01, 0x03, 0x01, 0x00, 0x11, 0x00, 0x03, 0x02, 0x00, 0x14, 0x00, 0x0E, 0x03, 0x00, 0x22, 0x00,
    0x02, 0x04, 0x03, 0x04, 0x03, 0x04, 0x02, 0x05, 0x06, 0x05, 0x03, 0x00, 0x01, 0x02, 0x06, 0x02,
    0x01, 0x03, 0x01, 0x02,
];

const PLATE: [u16; 36] = [
    2, 0, 2, 2, 0, 0, 0, 0, 0, 0, 0, 0, // serial
    1, 2, 5, 3, 0, 0, 0, 0, 0, 0, 0, 0, // rating
    0, 0, 5, 2, 1, 2, 0, 0, 0, 0, 0, 0, // plate
];

#[test]
fn finds_the_first_fault(rt: HostRuntime) {
    assert_eq!(rt; check(&HOUSE, &[3, 1, 1, 0, 2], &PLATE), Ok(None));
    // 1 must precede 2.
    assert_eq!(rt; check(&HOUSE, &[3, 1, 2, 0, 1], &PLATE), Ok(Some(1)));
    // A serial needs a 1 and a 3.
    assert_eq!(rt; check(&HOUSE, &[1, 1, 1, 0, 2], &PLATE), Ok(Some(0)));
    // Nothing of these is a plate, or even a whole line.
    assert_eq!(rt; check(&HOUSE, &[3, 1, 1, 0, 2], &PLATE[..24]), Ok(Some(2)));
    assert_eq!(rt; check(&HOUSE, &[3, 1, 1, 0, 2], &PLATE[..35]), Ok(Some(2)));
    assert_eq!(rt; check(&HOUSE, &[3, 1, 1, 0, 2], &[]), Ok(Some(0)));
}

// What an independent checker, written from the rules in another language, makes of each change of one number of the plate's lines to one below 64: its numbers,
// 7 for valid lines, folded into one.
#[test]
fn judges_changed_lines(rt: HostRuntime) {
    let mut lines = PLATE;
    let mut folded: u32 = 0;
    for at in 0..lines.len() {
        let number = lines[at];
        for value in 0..64 {
            lines[at] = value;
            let fault = match check(&HOUSE, &[3, 1, 1, 0, 2], &lines) {
                Ok(None) => 7,
                Ok(Some(line)) => (line % 7) as u32,
                Err(_) => 99,
            };
            folded = folded.wrapping_mul(31).wrapping_add(fault);
        }
        lines[at] = number;
    }
    assert_eq!(rt; folded, 3_818_281_120);
}

#[test]
fn refuses_before_it_checks(rt: HostRuntime) {
    assert_eq!(rt; check(&HOUSE[..35], &[4], &[]), Err(Refusal::Contents));
    assert_eq!(rt; check(&HOUSE, &[4; 65], &[]), Err(Refusal::LongRow));
    assert_eq!(rt; check(&HOUSE, &[4; 64], &[]), Err(Refusal::StrangeToken));
}

#[test]
fn writes_the_bracket_that_fits(rt: HostRuntime) {
    let mut buffer = [7; 19];
    assert_eq!(rt;
        bracket(&HOUSE, &[3, 1, 1, 0, 2], &PLATE, &mut buffer),
        Ok(19)
    );
    assert_eq!(rt; &buffer, b"(0(2 3 1)(1 1 0 2))");
    let mut longer = [7; 20];
    assert_eq!(rt;
        bracket(&HOUSE, &[3, 1, 1, 0, 2], &PLATE, &mut longer),
        Ok(19)
    );
    assert_eq!(rt; &longer, b"(0(2 3 1)(1 1 0 2))\0");
    let mut shorter = [7; 18];
    assert_eq!(rt;
        bracket(&HOUSE, &[3, 1, 1, 0, 2], &PLATE, &mut shorter),
        Err(Refusal::LongBracket)
    );
    assert_eq!(rt; shorter, [7; 18]);
}

#[test]
fn views_the_words_under_a_line(rt: HostRuntime) {
    let tokens = [3, 1, 1, 0, 2];
    assert_eq!(rt; view(&HOUSE, &tokens, &PLATE, 0), &tokens[..2]);
    assert_eq!(rt; view(&HOUSE, &tokens, &PLATE, 1), &tokens[2..]);
    assert_eq!(rt; view_refusal(&HOUSE, &tokens, &PLATE, 1), None);
    assert_eq!(rt; view(&HOUSE, &tokens, &PLATE, 3), &tokens[..0]);
    assert_eq!(rt;
        view_refusal(&HOUSE, &tokens, &PLATE, 3),
        Some(Refusal::NoLine)
    );
}

#[test]
fn numbers_a_view(rt: HostRuntime) {
    let tokens = [3, 1, 1, 0, 2];
    assert_eq!(rt; view_number(&HOUSE, &tokens, &PLATE, 0), 0);
    assert_eq!(rt; view_number(&HOUSE, &tokens, &PLATE, 2), 0);
    assert_eq!(rt; view_number(&HOUSE, &tokens, &PLATE, 3), 32);
    // A number too few, and no lines.
    assert_eq!(rt; view_number(&HOUSE, &tokens, &PLATE[..35], 0), 30);
    assert_eq!(rt; view_number(&HOUSE, &tokens, &[], 0), 30);
    // Tokens of 3 are terminals, and 64 of them pass.
    assert_eq!(rt; view_number(&HOUSE, &[3; 64], &PLATE, 0), 30);
    assert_eq!(rt; view_number(&HOUSE, &[4], &PLATE, 0), 21);
    assert_eq!(rt; view_number(&HOUSE, &[4; 65], &PLATE, 0), 20);
    assert_eq!(rt; view_number(&HOUSE[..35], &tokens, &PLATE, 0), 10);
}

// Symbol k has eight times symbol k + 1 for its members, and the last of 24 has none.
const EIGHTFOLD: [u8; 253] = [
    1, 3, 1, 0, 17, 0, 3, 2, 0, 20, 0, 233, 3, 0, 253, 0, 0, 1, 24, 1, 24, 1, 8, 2, 2, 2, 2, 2, 2,
    2, 2, 2, 8, 3, 3, 3, 3, 3, 3, 3, 3, 3, 8, 4, 4, 4, 4, 4, 4, 4, 4, 4, 8, 5, 5, 5, 5, 5, 5, 5, 5,
    5, 8, 6, 6, 6, 6, 6, 6, 6, 6, 6, 8, 7, 7, 7, 7, 7, 7, 7, 7, 7, 8, 8, 8, 8, 8, 8, 8, 8, 8, 8, 8,
    9, 9, 9, 9, 9, 9, 9, 9, 9, 8, 10, 10, 10, 10, 10, 10, 10, 10, 10, 8, 11, 11, 11, 11, 11, 11,
    11, 11, 11, 8, 12, 12, 12, 12, 12, 12, 12, 12, 12, 8, 13, 13, 13, 13, 13, 13, 13, 13, 13, 8,
    14, 14, 14, 14, 14, 14, 14, 14, 14, 8, 15, 15, 15, 15, 15, 15, 15, 15, 15, 8, 16, 16, 16, 16,
    16, 16, 16, 16, 16, 8, 17, 17, 17, 17, 17, 17, 17, 17, 17, 8, 18, 18, 18, 18, 18, 18, 18, 18,
    18, 8, 19, 19, 19, 19, 19, 19, 19, 19, 19, 8, 20, 20, 20, 20, 20, 20, 20, 20, 20, 8, 21, 21,
    21, 21, 21, 21, 21, 21, 21, 8, 22, 22, 22, 22, 22, 22, 22, 22, 22, 8, 23, 23, 23, 23, 23, 23,
    23, 23, 23, 8, 24, 24, 24, 24, 24, 24, 24, 24, 24, 0,
];

// A line for each symbol over no tokens, each eight times a part of the next: the bracket is longer than 2 ^ 64.
const SHARED: [u16; 288] = [
    23, 0, 0, 0, 0, 0, 0, 0, 0, 0, 0, 0, 22, 0, 0, 8, 1, 1, 1, 1, 1, 1, 1, 1, 21, 0, 0, 8, 2, 2, 2,
    2, 2, 2, 2, 2, 20, 0, 0, 8, 3, 3, 3, 3, 3, 3, 3, 3, 19, 0, 0, 8, 4, 4, 4, 4, 4, 4, 4, 4, 18, 0,
    0, 8, 5, 5, 5, 5, 5, 5, 5, 5, 17, 0, 0, 8, 6, 6, 6, 6, 6, 6, 6, 6, 16, 0, 0, 8, 7, 7, 7, 7, 7,
    7, 7, 7, 15, 0, 0, 8, 8, 8, 8, 8, 8, 8, 8, 8, 14, 0, 0, 8, 9, 9, 9, 9, 9, 9, 9, 9, 13, 0, 0, 8,
    10, 10, 10, 10, 10, 10, 10, 10, 12, 0, 0, 8, 11, 11, 11, 11, 11, 11, 11, 11, 11, 0, 0, 8, 12,
    12, 12, 12, 12, 12, 12, 12, 10, 0, 0, 8, 13, 13, 13, 13, 13, 13, 13, 13, 9, 0, 0, 8, 14, 14,
    14, 14, 14, 14, 14, 14, 8, 0, 0, 8, 15, 15, 15, 15, 15, 15, 15, 15, 7, 0, 0, 8, 16, 16, 16, 16,
    16, 16, 16, 16, 6, 0, 0, 8, 17, 17, 17, 17, 17, 17, 17, 17, 5, 0, 0, 8, 18, 18, 18, 18, 18, 18,
    18, 18, 4, 0, 0, 8, 19, 19, 19, 19, 19, 19, 19, 19, 3, 0, 0, 8, 20, 20, 20, 20, 20, 20, 20, 20,
    2, 0, 0, 8, 21, 21, 21, 21, 21, 21, 21, 21, 1, 0, 0, 8, 22, 22, 22, 22, 22, 22, 22, 22, 0, 0,
    0, 8, 23, 23, 23, 23, 23, 23, 23, 23,
];

#[test]
fn refuses_a_bracket_beyond_any_buffer(rt: HostRuntime) {
    assert_eq!(rt; check(&EIGHTFOLD, &[], &SHARED), Ok(None));
    let mut buffer = [7; 100];
    assert_eq!(rt;
        bracket(&EIGHTFOLD, &[], &SHARED, &mut buffer),
        Err(Refusal::LongBracket)
    );
    assert_eq!(rt; buffer, [7; 100]);
}
