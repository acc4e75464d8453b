// The list that grows: each operation puts entries into it, and all that becomes of them by taking empty parts.

ghost use Rattle.std.specs.Prelude.{◌≡◌, ℕ, ◌<◌, ◌≤◌, OnOk, IfErr, IfSome, MatchOption, length};
ghost use Rattle.paper.specs.Bits.{bit_at};
ghost use Rattle.paper.specs.Grammar.{IsNonterminal, rule_count, left};
ghost use Rattle.paper.specs.Entry.{Found, fresh};
ghost use Rattle.paper.specs.Image.{grammar_of};
ghost use Rattle.tables.specs.Machine.{IsByte};
ghost use Rattle.tables.specs.Masks.{entry_with};
ghost use Rattle.sheet.specs.Learning.{IsNoted, AreEmptyParts, GainsLeft};
ghost use Rattle.sheet.specs.Growing.{Holds, LookedFor, Reaches, Advanced, Completed, Predicted};
ghost use Rattle.sheet.specs.Grown.{cells_of, IsState, IsGrowth, IsTooMany};
ghost use Rattle.sheet.specs.Stages.{stage_at, Reason, IsSource, list_in, IsLow, AreStaged, Stays, Puts};

use crate::bytes::ByteSet;
use crate::list::{KEYS, place};
use crate::word::Entry;
use paper::{Place, Refusal, RuleNo, SymbolNo};
use tables::input::Input;

// `input`, `words` and `lists` go into each operation together. They stay three: a type that holds the lent words with this state as its invariant would break it
// each time a cell is placed, until what the cell tells is noted, and would be no plainer.

/// The lists so far, and what the entries of the last one, which grows, tell.
#[derive(Drop)]
pub struct Lists {
    /// The place of the list that grows.
    pub place: u8,
    /// Where each list starts.
    pub starts: [usize; 66],
    /// Where the list that grows ends.
    pub end: usize,
    /// For each origin before the place, the left symbols of the finished entries that have it.
    pub found: [u64; 64],
    /// The nonterminals that are looked for at the place.
    pub want: u64,
}

/// Notes what a new entry tells, and answers the symbols that derive nothing and may be taken from it, a bit for each.
fn learn(input: &Input, lists: &mut Lists, entry: Entry) -> u64
    requires place { lists.old.place ≤ 64 }
    requires rule { entry.rule.0 < rule_count (grammar_of input.now.grammar.now) }
    requires byte { IsByte (grammar_of input.now.grammar.now) entry.rule.0 entry.rest }
    ensures place { lists.new.place ≡ lists.old.place }
    ensures starts { lists.new.starts ≡ lists.old.starts }
    ensures end { lists.new.end ≡ lists.old.end }
    ensures noted { IsNoted (grammar_of input.now.grammar.now) lists.old.place entry.rule.0 entry.origin.0 entry.rest lists.old.found lists.old.want lists.new.found lists.new.want }
    ensures empty { AreEmptyParts (grammar_of input.now.grammar.now) entry.rule.0 entry.rest result }
{
    let grammar = input.grammar;
    let symbols = grammar.takeable(entry.rule, entry.rest);
    lists.want |= symbols & grammar.nonterminal_set();
    if entry.rest == 0 && entry.origin.0 < usize::from(lists.place) {
        lists.found[entry.origin.0] |= 1 << grammar.left(entry.rule).0;
    }
    symbols & grammar.empty_set()
}

/// Puts what is left of an entry when each of the symbols is taken from it among the bytes.
fn take_each(input: &Input, entry: Entry, symbols: u64, bytes: &mut ByteSet)
    requires rule { entry.rule.0 < rule_count (grammar_of input.now.grammar.now) }
    requires byte { IsByte (grammar_of input.now.grammar.now) entry.rule.0 entry.rest }
    ensures { GainsLeft (grammar_of input.now.grammar.now) entry.rule.0 entry.rest symbols bytes.old.words bytes.new.words }
{
    let grammar = input.grammar;
    let mut untaken = symbols;
    while untaken != 0 {
        let x = untaken.trailing_zeros();
        if let Some(rest) = grammar.take(entry.rule, entry.rest, SymbolNo(x as usize)) {
            bytes.add(rest);
        }
        untaken -= 1 << x;
    }
}

/// The stage of an entry that is put in with a stage: over an empty span the highest rank of the members that are found.
fn stage_of(input: &Input, place: u8, entry: Entry, stage: u32) -> u32
    requires rule { entry.rule.0 < rule_count (grammar_of input.now.grammar.now) }
    requires stage { stage < 64 }
    ensures stage { result ≡ stage_at (grammar_of input.now.grammar.now) input.now.ranks.now place entry.rule.0 entry.origin.0 entry.rest stage }
    ensures small { result < 64 }
{
    if entry.origin.0 != usize::from(place) {
        return stage;
    }
    let mut highest = 0;
    let mut rest = entry.rest;
    for k in 0..input.grammar.size(entry.rule) {
        let rank = input.ranks[input.grammar.member(entry.rule, k).0];
        if rest % 2 == 0 && highest < rank {
            highest = rank;
        }
        rest /= 2;
    }
    u32::from(highest)
}

/// Puts an entry into the list, and all that becomes of it by taking empty parts.
pub fn insert(
    input: &Input,
    words: &mut [u32],
    lists: &mut Lists,
    entry: Entry,
    stage: u32,
) -> Result<(), Refusal>
    requires state { IsState input.now.grammar.now input.now.tokens.now words.old lists.old }
    requires rule { entry.rule.0 < rule_count (grammar_of input.now.grammar.now) }
    requires byte { IsByte (grammar_of input.now.grammar.now) entry.rule.0 entry.rest }
    requires found { Found (grammar_of input.now.grammar.now) input.now.tokens.now lists.old.place (entry_with (grammar_of input.now.grammar.now) entry.rule.0 entry.origin.0 entry.rest) }
    requires stage { stage < 64 }
    requires staged { AreStaged input.now.grammar.now input.now.tokens.now input.now.ranks.now words.old lists.old }
    requires reason { Reason (grammar_of input.now.grammar.now) input.now.tokens.now lists.old.place (list_in lists.old.starts words.old) (cells_of words.old lists.old) entry.rule.0 entry.origin.0 entry.rest stage }
    ensures grown { OnOk result (IsGrowth input.now.grammar.now input.now.tokens.now entry.origin.0 entry.origin.0 words.old lists.old words.new lists.new) }
    ensures has { OnOk result (Holds (grammar_of input.now.grammar.now) (cells_of words.new lists.new) (entry_with (grammar_of input.now.grammar.now) entry.rule.0 entry.origin.0 entry.rest)) }
    ensures staged { OnOk result (AreStaged input.now.grammar.now input.now.tokens.now input.now.ranks.now words.new lists.new) }
    ensures stays { OnOk result (Stays words.old lists.old words.new lists.new) }
    ensures puts { OnOk result (Puts entry.origin.0 stage words.old lists.old words.new lists.new) }
    ensures few { IfErr result (λ why. (why ≡ Refusal.FewWords) × IsTooMany input.now.grammar.now input.now.tokens.now (length words.old)) }
{
    let mut pending = ByteSet::of(entry.rest);
    while let Some(rest) = pending.take_greatest() {
        let part = Entry {
            rule: entry.rule,
            origin: entry.origin,
            rest,
        };
        let base = lists.starts[usize::from(lists.place)];
        let stage = stage_of(input, lists.place, part, stage);
        if place(words, base, lists.end, part.word() + stage * KEYS)? {
            lists.end += 1;
            let empty = learn(input, lists, part);
            take_each(input, part, empty, &mut pending);
        }
    }
    Ok(())
}

/// Takes symbol x from each entry of list i from which it may be taken. What has origin i gets the stage.
pub fn advance(
    input: &Input,
    words: &mut [u32],
    lists: &mut Lists,
    i: u8,
    x: SymbolNo,
    stage: u32,
) -> Result<(), Refusal>
    requires state { IsState input.now.grammar.now input.now.tokens.now words.old lists.old }
    requires earlier { i < lists.old.place }
    requires reaches { Reaches (grammar_of input.now.grammar.now) input.now.tokens.now i lists.old.place x.0 }
    requires stage { stage < 64 }
    requires staged { AreStaged input.now.grammar.now input.now.tokens.now input.now.ranks.now words.old lists.old }
    requires source { IsSource (grammar_of input.now.grammar.now) input.now.tokens.now lists.old.place (cells_of words.old lists.old) i x.0 stage }
    requires low { IsLow i stage (cells_of words.old lists.old) }
    ensures grown { OnOk result (IsGrowth input.now.grammar.now input.now.tokens.now 0 i words.old lists.old words.new lists.new) }
    ensures advanced { OnOk result (Advanced (grammar_of input.now.grammar.now) input.now.tokens.now i x.0 (cells_of words.new lists.new)) }
    ensures staged { OnOk result (AreStaged input.now.grammar.now input.now.tokens.now input.now.ranks.now words.new lists.new) }
    ensures stays { OnOk result (Stays words.old lists.old words.new lists.new) }
    ensures low { OnOk result (IsLow i stage (cells_of words.new lists.new)) }
    ensures few { IfErr result (λ why. (why ≡ Refusal.FewWords) × IsTooMany input.now.grammar.now input.now.tokens.now (length words.old)) }
{
    let from = usize::from(i);
    for at in lists.starts[from]..lists.starts[from + 1] {
        let entry = Entry::of_word(words[at] % KEYS);
        if let Some(rest) = input.grammar.take(entry.rule, entry.rest, x) {
            let stage = if entry.origin.0 == from { stage } else { 0 };
            let left = Entry {
                rule: entry.rule,
                origin: entry.origin,
                rest,
            };
            insert(input, words, lists, left, stage)?;
        }
    }
    Ok(())
}

/// A symbol of the set that is not done yet.
fn next_symbol(set: u64, done: u64) -> Option<SymbolNo>
    ensures next { MatchOption result ((x : ℕ) → bit_at x set ≡ 1 → bit_at x done ≡ 1) (λ x. bit_at x.0 set ≡ 1) }
    ensures new { IfSome result (λ x. bit_at x.0 done ≡ 0) }
    ensures below { IfSome result (λ x. x.0 < 64) }
{
    let left = set & !done;
    if left == 0 {
        return None;
    }
    Some(SymbolNo(left.trailing_zeros() as usize))
}

/// Takes each symbol that is finished from origin i from the entries of list i, once.
pub fn complete(input: &Input, words: &mut [u32], lists: &mut Lists, i: u8) -> Result<(), Refusal>
    requires state { IsState input.now.grammar.now input.now.tokens.now words.old lists.old }
    requires earlier { i < lists.old.place }
    requires staged { AreStaged input.now.grammar.now input.now.tokens.now input.now.ranks.now words.old lists.old }
    requires low { IsLow i 0 (cells_of words.old lists.old) }
    ensures grown { OnOk result (IsGrowth input.now.grammar.now input.now.tokens.now 0 i words.old lists.old words.new lists.new) }
    ensures completed { OnOk result (Completed (grammar_of input.now.grammar.now) input.now.tokens.now i (cells_of words.new lists.new)) }
    ensures staged { OnOk result (AreStaged input.now.grammar.now input.now.tokens.now input.now.ranks.now words.new lists.new) }
    ensures stays { OnOk result (Stays words.old lists.old words.new lists.new) }
    ensures low { OnOk result (IsLow i 63 (cells_of words.new lists.new)) }
    ensures few { IfErr result (λ why. (why ≡ Refusal.FewWords) × IsTooMany input.now.grammar.now input.now.tokens.now (length words.old)) }
{
    let mut done = 0;
    let mut stage = 0;
    while let Some(x) = next_symbol(lists.found[usize::from(i)], done) {
        done |= 1 << x.0;
        stage += 1;
        advance(input, words, lists, i, x, stage)?;
    }
    Ok(())
}

/// Looks for each rule of a symbol.
fn predict_symbol(
    input: &Input,
    words: &mut [u32],
    lists: &mut Lists,
    x: SymbolNo,
) -> Result<(), Refusal>
    requires state { IsState input.now.grammar.now input.now.tokens.now words.old lists.old }
    requires nonterminal { IsNonterminal (grammar_of input.now.grammar.now) x.0 }
    requires looked_for { LookedFor (grammar_of input.now.grammar.now) lists.old.place (cells_of words.old lists.old) x.0 }
    requires staged { AreStaged input.now.grammar.now input.now.tokens.now input.now.ranks.now words.old lists.old }
    ensures grown { OnOk result (IsGrowth input.now.grammar.now input.now.tokens.now lists.old.place lists.old.place words.old lists.old words.new lists.new) }
    ensures predicted { OnOk result ((h : ℕ) → h < rule_count (grammar_of input.now.grammar.now) → left (grammar_of input.now.grammar.now) h ≡ x.0 → Holds (grammar_of input.now.grammar.now) (cells_of words.new lists.new) (fresh (grammar_of input.now.grammar.now) h lists.old.place)) }
    ensures staged { OnOk result (AreStaged input.now.grammar.now input.now.tokens.now input.now.ranks.now words.new lists.new) }
    ensures stays { OnOk result (Stays words.old lists.old words.new lists.new) }
    ensures few { IfErr result (λ why. (why ≡ Refusal.FewWords) × IsTooMany input.now.grammar.now input.now.tokens.now (length words.old)) }
{
    for h in input.grammar.first(x)..input.grammar.first(SymbolNo(x.0 + 1)) {
        let rule = RuleNo(h);
        let entry = Entry {
            rule,
            origin: Place(usize::from(lists.place)),
            rest: input.grammar.full(rule),
        };
        insert(input, words, lists, entry, 0)?;
    }
    Ok(())
}

/// Looks for the rules of each nonterminal that is looked for, once.
pub fn predict(input: &Input, words: &mut [u32], lists: &mut Lists) -> Result<(), Refusal>
    requires state { IsState input.now.grammar.now input.now.tokens.now words.old lists.old }
    requires staged { AreStaged input.now.grammar.now input.now.tokens.now input.now.ranks.now words.old lists.old }
    ensures grown { OnOk result (IsGrowth input.now.grammar.now input.now.tokens.now lists.old.place lists.old.place words.old lists.old words.new lists.new) }
    ensures predicted { OnOk result (Predicted (grammar_of input.now.grammar.now) lists.old.place (cells_of words.new lists.new)) }
    ensures staged { OnOk result (AreStaged input.now.grammar.now input.now.tokens.now input.now.ranks.now words.new lists.new) }
    ensures stays { OnOk result (Stays words.old lists.old words.new lists.new) }
    ensures few { IfErr result (λ why. (why ≡ Refusal.FewWords) × IsTooMany input.now.grammar.now input.now.tokens.now (length words.old)) }
{
    let mut predicted = 0;
    while let Some(x) = next_symbol(lists.want, predicted) {
        predicted |= 1 << x.0;
        predict_symbol(input, words, lists, x)?;
    }
    Ok(())
}
