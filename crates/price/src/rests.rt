// How many rests the rules can have: the sub-multisets of their members.

ghost use Rattle.std.specs.Prelude.{◌≡◌, ◌*◌, ◌<◌, ◌≤◌, length};
ghost use Rattle.paper.specs.Grammar.{IsGrammar, rule_count, members};
ghost use Rattle.paper.specs.Image.{grammar_of};
ghost use Rattle.paper.specs.Multiset.{sub_multisets};
ghost use Rattle.paper.specs.Price.{rests};

use paper::RuleNo;
use tables::Grammar;

/// How many rests rule h can have: the members ascend, so equal ones stand together.
fn count_of_rule(grammar: &Grammar, h: RuleNo) -> u64
    requires is_grammar { IsGrammar (grammar_of grammar.now) }
    requires rule { h.0 < rule_count (grammar_of grammar.now) }
    ensures exact { result ≡ length (sub_multisets (members (grammar_of grammar.now) h.0)) }
    ensures few { result ≤ 256 }
{
    // How many the members from k on have, and how many of those have every member equal to member k. With no members both are one, and `next` is of no matter.
    let mut all = 1;
    let mut whole = 1;
    let mut next = 0;
    for k in (0..grammar.size(h)).rev() {
        let member = grammar.member(h, k).0;
        if member != next {
            whole = all;
        }
        all += whole;
        next = member;
    }
    all
}

/// D, how many rests all the rules can have.
pub fn count_rests(grammar: &Grammar) -> u64
    ensures exact { result ≡ rests (grammar_of grammar.now) }
    ensures few { result ≤ 96 * 256 }
{
    let mut sum = 0;
    for h in 0..grammar.rule_count() {
        sum += count_of_rule(grammar, RuleNo(h));
    }
    sum
}
