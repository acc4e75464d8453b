// The checker: the first line at fault. It trusts nobody.

ghost use Rattle.std.specs.Prelude.{◌≡◌, ◌↔◌, [], ◌∷◌, ℕ, None, Some, ◌+◌, ◌<◌, ◌≤◌, IsTrue, MatchOption, length};
ghost use Rattle.paper.specs.Grammar.{rule_count, left, members};
ghost use Rattle.paper.specs.Image.{grammar_of};
ghost use Rattle.paper.specs.Lines.{line_size, line_count, line_rule, line_from, line_to, line_parts, line_slot, line_symbol, Joins, LineRight, Uses, WholeRight, Judged};
ghost use Rattle.lines.specs.Parts.{DoPartsJoin, IsAlike};

use crate::line::{LINE, count, from, parts, rule, slot, to};
use paper::{RuleNo, SymbolNo};
use tables::input::Input;

/// The left symbol of a line that is right.
fn symbol(input: &Input, lines: &[u16], k: usize) -> SymbolNo
    requires line { k < line_count lines.now }
    requires rule { line_rule lines.now k < rule_count (grammar_of input.now.grammar.now) }
    ensures { result.0 ≡ line_symbol (grammar_of input.now.grammar.now) lines.now k }
{
    input.grammar.left(RuleNo(rule(lines, k)))
}

/// The symbol of the part in slot x of line k, and where it ends, if it begins at this place.
fn part_at(input: &Input, lines: &[u16], k: usize, x: usize, at: usize) -> Option<(SymbolNo, usize)>
    requires line { k < line_count lines.now }
    requires slot { x < 8 }
    requires earlier { (i : ℕ) → i < k → LineRight (grammar_of input.now.grammar.now) input.now.tokens.now lines.now i }
    ensures { MatchOption result
        ((end a : ℕ) → ¬ Joins (grammar_of input.now.grammar.now) input.now.tokens.now lines.now k (line_slot lines.now k x ∷ []) at end (a ∷ []))
        (λ p. Joins (grammar_of input.now.grammar.now) input.now.tokens.now lines.now k (line_slot lines.now k x ∷ []) at p.1 (p.0.0 ∷ [])) }
{
    let part = slot(lines, k, x);
    if part == 0 {
        if at >= input.tokens.len() {
            return None;
        }
        return Some((SymbolNo(usize::from(input.tokens[at])), at + 1));
    }
    let earlier = part - 1;
    if earlier >= k || from(lines, earlier) != at {
        return None;
    }
    Some((symbol(input, lines, earlier), to(lines, earlier)))
}

/// Whether the parts of line k join from its begin to its end, and are the members of its rule in an acceptable order.
fn do_parts_join(input: &Input, lines: &[u16], k: usize) -> bool
    requires line { k < line_count lines.now }
    requires rule { line_rule lines.now k < rule_count (grammar_of input.now.grammar.now) }
    requires parts { line_parts lines.now k ≡ length (members (grammar_of input.now.grammar.now) (line_rule lines.now k)) }
    requires earlier { (i : ℕ) → i < k → LineRight (grammar_of input.now.grammar.now) input.now.tokens.now lines.now i }
    ensures { IsTrue result ↔ DoPartsJoin (grammar_of input.now.grammar.now) input.now.tokens.now lines.now k }
{
    let h = RuleNo(rule(lines, k));
    let mut at = from(lines, k);
    let mut rest = input.grammar.full(h);
    for x in 0..input.grammar.size(h) {
        let Some((a, end)) = part_at(input, lines, k, x, at) else {
            return false;
        };
        let Some(left) = input.grammar.take(h, rest, a) else {
            return false;
        };
        rest = left;
        at = end;
    }
    at == to(lines, k)
}

/// Whether the slots of line k from x on are 0.
fn are_slots_clear(lines: &[u16], k: usize, x: usize) -> bool
    requires { k < line_count lines.now }
    ensures { IsTrue result ↔ ((y : ℕ) → x ≤ y → y < 8 → line_slot lines.now k y ≡ 0) }
{
    for y in x..8 {
        if slot(lines, k, y) != 0 {
            return false;
        }
    }
    true
}

/// Whether an earlier line has the left symbol and the span of line k.
fn is_shared(input: &Input, lines: &[u16], k: usize) -> bool
    requires line { k < line_count lines.now }
    requires rule { line_rule lines.now k < rule_count (grammar_of input.now.grammar.now) }
    requires earlier { (i : ℕ) → i < k → LineRight (grammar_of input.now.grammar.now) input.now.tokens.now lines.now i }
    ensures { IsTrue result ↔ ((i : ℕ) × (i < k) × IsAlike (grammar_of input.now.grammar.now) lines.now i k) }
{
    for i in 0..k {
        if symbol(input, lines, i) == symbol(input, lines, k)
            && from(lines, i) == from(lines, k)
            && to(lines, i) == to(lines, k)
        {
            return true;
        }
    }
    false
}

/// Whether line k is right, where the lines before it are.
fn is_line_right(input: &Input, lines: &[u16], k: usize) -> bool
    requires line { k < line_count lines.now }
    requires earlier { (i : ℕ) → i < k → LineRight (grammar_of input.now.grammar.now) input.now.tokens.now lines.now i }
    ensures { IsTrue result ↔ LineRight (grammar_of input.now.grammar.now) input.now.tokens.now lines.now k }
{
    if rule(lines, k) >= input.grammar.rule_count()
        || parts(lines, k) != input.grammar.size(RuleNo(rule(lines, k)))
        || from(lines, k) > to(lines, k)
        || to(lines, k) > input.tokens.len()
        || !are_slots_clear(lines, k, parts(lines, k))
        || !do_parts_join(input, lines, k)
    {
        return false;
    }
    !is_shared(input, lines, k)
}

/// Whether line k is a part of line i.
fn does_use(lines: &[u16], i: usize, k: usize) -> bool
    requires line { i < line_count lines.now }
    requires part { k < line_count lines.now }
    requires few { line_parts lines.now i ≤ 8 }
    ensures { IsTrue result ↔ Uses lines.now i k }
{
    for x in 0..parts(lines, i) {
        if slot(lines, i, x) == k + 1 {
            return true;
        }
    }
    false
}

/// Whether line k is a part of a later line.
fn is_used(lines: &[u16], k: usize) -> bool
    requires line { k < line_count lines.now }
    requires few { (i : ℕ) → i < line_count lines.now → line_parts lines.now i ≤ 8 }
    ensures { IsTrue result ↔ ((i : ℕ) × (k < i) × (i < line_count lines.now) × Uses lines.now i k) }
{
    for i in k + 1..count(lines) {
        if does_use(lines, i, k) {
            return true;
        }
    }
    false
}

/// Whether the lines, each of them right, make a whole: the last is of the start symbol over all tokens, and every other is used by a later one.
fn is_whole_right(input: &Input, lines: &[u16]) -> bool
    requires { (i : ℕ) → i < line_count lines.now → LineRight (grammar_of input.now.grammar.now) input.now.tokens.now lines.now i }
    ensures { IsTrue result ↔ WholeRight (grammar_of input.now.grammar.now) input.now.tokens.now lines.now }
{
    if count(lines) == 0 {
        return false;
    }
    let last = count(lines) - 1;
    if symbol(input, lines, last) != input.grammar.start()
        || from(lines, last) != 0
        || to(lines, last) != input.tokens.len()
    {
        return false;
    }
    for k in 0..last {
        if !is_used(lines, k) {
            return false;
        }
    }
    true
}

/// The number of the first line at fault, if one is. A fault of the whole has the count of lines for its number.
pub fn first_fault(input: &Input, lines: &[u16]) -> Option<usize>
    ensures { Judged (grammar_of input.now.grammar.now) input.now.tokens.now lines.now result }
{
    if lines.len() % LINE != 0 {
        return Some(count(lines));
    }
    for k in 0..count(lines) {
        if !is_line_right(input, lines, k) {
            return Some(k);
        }
    }
    if is_whole_right(input, lines) {
        None
    } else {
        Some(count(lines))
    }
}
