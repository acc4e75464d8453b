// Images that are admitted, and the first refusal of others, at the borders of each test.

ghost use Rattle.std.specs.Prelude.{◌+◌, ◌<◌, length};

use super::*;
use crate::house::HOUSE;
use std::process::Abort;
use std::test::Fail;

// What is answered of the image that has these three bodies.
fn answers<R: Abort + AllocGlobal>(
    rt: &R,
    symbols: &[u8],
    rules: &[u8],
    order: &[u8],
    expected: Result<(), Refusal>,
) -> Result<(), Fail>
    requires { length symbols.now + length rules.now + length order.now < 200 }
{
    let rules_start = 17 + symbols.len() as u8;
    let order_start = rules_start + rules.len() as u8;
    let mut image = Vec::new(rt.alloc());
    image.extend_from_slice(&[1, 3, 1, 0, 17, 0, symbols.len() as u8])?;
    image.extend_from_slice(&[2, 0, rules_start, 0, rules.len() as u8])?;
    image.extend_from_slice(&[3, 0, order_start, 0, order.len() as u8])?;
    image.extend_from_slice(symbols)?;
    image.extend_from_slice(rules)?;
    image.extend_from_slice(order)?;
    assert_eq!(rt; check(&image), expected);
    Ok(())
}

#[test]
fn judges_whole_images(rt: HostRuntime) {
    assert_eq!(rt; check(&HOUSE), Ok(()));
    assert_eq!(rt; check(&[]), Err(Refusal::Contents));
}

#[test]
fn admits_64_symbols(rt: HostRuntime) -> Result<(), Fail> {
    answers(&rt, &[32, 32, 32], &[0], &[], Ok(()))?;
    answers(&rt, &[33, 32, 33], &[0], &[], Err(Refusal::Symbols))
}

#[test]
fn admits_8_members(rt: HostRuntime) -> Result<(), Fail> {
    answers(
        &rt,
        &[1, 1, 1],
        &[1, 1, 8, 0, 0, 0, 0, 0, 0, 0, 0],
        &[],
        Ok(()),
    )?;
    answers(
        &rt,
        &[1, 1, 1],
        &[1, 1, 9, 0, 0, 0, 0, 0, 0, 0, 0, 0],
        &[],
        Err(Refusal::Rules),
    )
}

#[test]
fn wants_a_count_of_rules(rt: HostRuntime) -> Result<(), Fail> {
    answers(&rt, &[1, 1, 1], &[], &[], Err(Refusal::Rules))
}

#[test]
fn wants_pairs_in_order(rt: HostRuntime) -> Result<(), Fail> {
    answers(&rt, &[2, 1, 2], &[0], &[0], Err(Refusal::Order))?;
    answers(&rt, &[2, 1, 2], &[0], &[0, 1, 0, 0], Err(Refusal::Order))
}

#[test]
fn wants_no_self_pair(rt: HostRuntime) -> Result<(), Fail> {
    answers(&rt, &[2, 1, 2], &[0], &[0, 0], Err(Refusal::Chain))
}

#[test]
fn wants_closed_chains(rt: HostRuntime) -> Result<(), Fail> {
    answers(&rt, &[2, 1, 2], &[0], &[0, 1, 1, 2], Err(Refusal::Chain))?;
    answers(&rt, &[2, 1, 2], &[0], &[0, 1, 0, 2, 1, 2], Ok(()))?;
    answers(&rt, &[2, 1, 2], &[0], &[0, 1, 1, 0], Err(Refusal::Chain))
}

// What an independent check, written from the rules in another language, makes of every change of one byte: its numbers, 0 for an admitted image, folded into one.
fn folded_changes(image: &mut [u8]) -> u32 {
    let mut folded: u32 = 0;
    for at in 0..image.len() {
        let byte = image[at];
        for value in 0..=255 {
            image[at] = value;
            let number = check(image).map_or_else(|why| why.number(), |_| 0);
            folded = folded.wrapping_mul(31).wrapping_add(u32::from(number));
        }
        image[at] = byte;
    }
    folded
}

#[test]
fn changes_of_the_house_image(rt: HostRuntime) {
    let mut image = HOUSE;
    assert_eq!(rt; folded_changes(&mut image), 1_293_412_230);
}

#[test]
fn changes_of_a_larger_image(rt: HostRuntime) {
    // Four terminals and four nonterminals, six rules, one of eight members, and four symbols in a row.
    let mut image = [
        1, 3, 1, 0, 17, 0, 3, 2, 0, 20, 0, 31, 3, 0, 51, 0, 12, 4, 4, 7, 6, 4, 0, 4, 2, 5, 6, 5, 3,
        0, 1, 2, 5, 8, 0, 0, 1, 1, 2, 2, 3, 3, 6, 2, 1, 3, 7, 3, 4, 5, 7, 0, 1, 0, 2, 0, 3, 1, 2,
        1, 3, 2, 3,
    ];
    assert_eq!(rt; folded_changes(&mut image), 990_938_700);
}
