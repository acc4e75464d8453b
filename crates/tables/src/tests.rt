// Two grammars as their tables answer: the house grammar, and one with equal members that derives the empty row.

ghost use Rattle.std.specs.Prelude.{◌≡◌, length};

use super::*;
use image::house::HOUSE;
use paper::Refusal;
use std::process::Abort;

// Symbol 1 has no members, symbol 2 is twice symbol 1.
const EMPTY: [u8; 27] = [
    1, 3, 1, 0, 17, 0, 3, 2, 0, 20, 0, 7, 3, 0, 27, 0, 0, 1, 2, 2, 2, 1, 0, 2, 2, 1, 1,
];

// Rule h has this left symbol and these members, each with these bars.
fn expect_rule(
    rt: &impl Abort,
    grammar: &Grammar,
    h: usize,
    left: usize,
    members: &[usize],
    bars: &[u8],
)
    requires { length members.now ≡ length bars.now }
{
    assert!(rt; h < grammar.rule_count());
    let h = RuleNo(h);
    assert!(rt; grammar.left(h).0 == left);
    assert!(rt; grammar.size(h) == members.len());
    for (k, member) in members.iter().enumerate() {
        assert!(rt; grammar.member(h, k).0 == *member);
        assert!(rt; grammar.bars(h, k) == bars[k]);
    }
}

#[test]
fn admits_the_house_grammar(rt: HostRuntime) {
    let Ok(grammar) = Grammar::admit(&HOUSE) else {
        panic!(rt; "refused");
    };
    assert_eq!(rt; grammar.rule_count(), 3);
    assert_eq!(rt; grammar.terminals(), 4);
    assert_eq!(rt; grammar.nonterminals(), 3);
    assert_eq!(rt; grammar.start().0, 4);
    assert_eq!(rt; grammar.nonterminal_set(), 0b111_0000);
    assert_eq!(rt; grammar.empty_set(), 0);
    expect_rule(&rt, &grammar, 0, 4, &[5, 6], &[0, 0]);
    // 1 precedes 2.
    expect_rule(&rt, &grammar, 1, 5, &[0, 1, 2], &[0, 0, 0b010]);
    expect_rule(&rt, &grammar, 2, 6, &[1, 3], &[0, 0]);
}

#[test]
fn ranks_what_derives_nothing(rt: HostRuntime) {
    let Ok(grammar) = Grammar::admit(&EMPTY) else {
        panic!(rt; "refused");
    };
    expect_rule(&rt, &grammar, 0, 1, &[], &[]);
    expect_rule(&rt, &grammar, 1, 2, &[1, 1], &[0, 0b01]);
    assert_eq!(rt; grammar.empty_set(), 0b110);
}

#[test]
fn says_why_it_refuses(rt: HostRuntime) {
    let Err(refusal) = Grammar::admit(&[]) else {
        panic!(rt; "admitted");
    };
    assert_eq!(rt; refusal, Refusal::Contents);
}
