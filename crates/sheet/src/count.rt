// What is counted over the finished sheet.

ghost use Rattle.std.specs.Prelude.{ℕ, ◌≡◌, ◌↔◌, IsTrue, ◌+◌, ◌*◌, ◌<◌, ◌≤◌, length, slice_index};
ghost use Rattle.paper.specs.Grammar.{IsNonterminal, rule_count, members};
ghost use Rattle.paper.specs.Image.{grammar_of};
ghost use Rattle.paper.specs.Sheet.{rest_of, steps, sum_below, tops};
ghost use Rattle.paper.specs.Building.{sheet_of};
ghost use Rattle.tables.specs.Machine.{IsByte};
ghost use Rattle.sheet.specs.Counting.{completed_by, rules_with, predictions_of, predict_at, waiting_at, ended_at, complete_at, steps_at};
ghost use Rattle.sheet.specs.Growing.{IsListOf};
ghost use Rattle.sheet.specs.Grown.{IsBuilt};

use crate::list::KEYS;
use crate::word::Entry;
use paper::SymbolNo;
use tables::input::Input;

/// The cells of list i.
fn list_of<'a>(input: &Input, words: &'a [u32], starts: &[usize; 66], i: usize) -> &'a [u32]
    requires built { IsBuilt input.now.grammar.now input.now.tokens.now words.now starts.now }
    requires place { i ≤ length input.now.tokens.now }
    ensures { IsListOf (grammar_of input.now.grammar.now) input.now.tokens.now i result.now }
{
    &words[starts[i]..starts[i + 1]]
}

/// How many rules a nonterminal has.
fn rules_of(input: &Input, x: SymbolNo) -> u64
    requires { IsNonterminal (grammar_of input.now.grammar.now) x.0 }
    ensures { result ≡ rules_with (grammar_of input.now.grammar.now) x.0 }
{
    let first = input.grammar.first(x);
    let end = input.grammar.first(SymbolNo(x.0 + 1));
    (end - first) as u64
}

/// The predict steps of an entry: the rules of each nonterminal that may be taken from it.
fn predictions(input: &Input, entry: Entry) -> u64
    requires rule { entry.rule.0 < rule_count (grammar_of input.now.grammar.now) }
    requires byte { IsByte (grammar_of input.now.grammar.now) entry.rule.0 entry.rest }
    ensures { result ≡ predictions_of (grammar_of input.now.grammar.now) (rest_of (members (grammar_of input.now.grammar.now) entry.rule.0) entry.rest) }
{
    let grammar = input.grammar;
    let mut symbols = grammar.takeable(entry.rule, entry.rest) & grammar.nonterminal_set();
    let mut steps = 0;
    while symbols != 0 {
        let x = symbols.trailing_zeros();
        steps += rules_of(input, SymbolNo(x as usize));
        symbols -= 1 << x;
    }
    steps
}

/// The predict steps of list j.
fn predict_steps(input: &Input, words: &[u32], starts: &[usize; 66], j: usize) -> u64
    requires built { IsBuilt input.now.grammar.now input.now.tokens.now words.now starts.now }
    requires place { j ≤ length input.now.tokens.now }
    ensures { result ≡ predict_at (grammar_of input.now.grammar.now) input.now.tokens.now j }
{
    let cells = list_of(input, words, starts, j);
    let mut steps = 0;
    for cell in cells {
        let entry = Entry::of_word(*cell % KEYS);
        steps += predictions(input, entry);
    }
    steps
}

/// How many entries of list i wait for symbol x.
fn waiting(input: &Input, words: &[u32], starts: &[usize; 66], i: usize, x: SymbolNo) -> u64
    requires built { IsBuilt input.now.grammar.now input.now.tokens.now words.now starts.now }
    requires place { i ≤ length input.now.tokens.now }
    ensures { result ≡ waiting_at (grammar_of input.now.grammar.now) input.now.tokens.now i x.0 }
{
    let cells = list_of(input, words, starts, i);
    let mut waiting = 0;
    for cell in cells {
        let entry = Entry::of_word(*cell % KEYS);
        if input.grammar.take(entry.rule, entry.rest, x).is_some() {
            waiting += 1;
        }
    }
    waiting
}

/// Whether an entry is finished and has origin i.
fn has_ended(entry: Entry, i: usize) -> bool
    ensures { IsTrue result ↔ ((entry.rest ≡ 0) × (entry.origin.0 ≡ i)) }
{
    entry.rest == 0 && entry.origin.0 == i
}

/// How many finished entries of origin i list j has for each left symbol.
fn count_ended(input: &Input, words: &[u32], starts: &[usize; 66], j: usize, i: usize) -> [u32; 64]
    requires built { IsBuilt input.now.grammar.now input.now.tokens.now words.now starts.now }
    requires place { j ≤ length input.now.tokens.now }
    ensures { (x : ℕ) → x < 64 → slice_index result x ≡ ended_at (grammar_of input.now.grammar.now) input.now.tokens.now j (64 * i + x) }
{
    let cells = list_of(input, words, starts, j);
    let mut ended = [0; 64];
    for cell in cells {
        let entry = Entry::of_word(*cell % KEYS);
        if has_ended(entry, i) {
            let left = input.grammar.left(entry.rule);
            ended[left.0] += 1;
        }
    }
    ended
}

/// The complete steps of list j with finished entries of origin i. List i is gone through once for each symbol that is finished from there.
fn completions_from(input: &Input, words: &[u32], starts: &[usize; 66], j: usize, i: usize) -> u64
    requires built { IsBuilt input.now.grammar.now input.now.tokens.now words.now starts.now }
    requires place { j ≤ length input.now.tokens.now }
    requires earlier { i ≤ j }
    ensures { sum_below (64 * i) (completed_by (grammar_of input.now.grammar.now) input.now.tokens.now j) + result ≡ sum_below (64 * (i + 1)) (completed_by (grammar_of input.now.grammar.now) input.now.tokens.now j) }
{
    let ended = count_ended(input, words, starts, j, i);
    let mut steps = 0;
    for x in 0..64 {
        if ended[x] > 0 {
            steps += u64::from(ended[x]) * waiting(input, words, starts, i, SymbolNo(x));
        }
    }
    steps
}

/// The complete steps of list j.
fn complete_steps(input: &Input, words: &[u32], starts: &[usize; 66], j: usize) -> u64
    requires built { IsBuilt input.now.grammar.now input.now.tokens.now words.now starts.now }
    requires place { j ≤ length input.now.tokens.now }
    ensures { result ≡ complete_at (grammar_of input.now.grammar.now) input.now.tokens.now j }
{
    let mut steps = 0;
    for i in 0..j + 1 {
        steps += completions_from(input, words, starts, j, i);
    }
    steps
}

/// The steps of list j.
fn list_steps(input: &Input, words: &[u32], starts: &[usize; 66], j: usize) -> u64
    requires built { IsBuilt input.now.grammar.now input.now.tokens.now words.now starts.now }
    requires place { j ≤ length input.now.tokens.now }
    ensures { result ≡ steps_at (grammar_of input.now.grammar.now) input.now.tokens.now j }
{
    let steps = predict_steps(input, words, starts, j) + complete_steps(input, words, starts, j);
    if j == input.tokens.len() {
        return steps;
    }
    let token = SymbolNo(usize::from(input.tokens[j]));
    steps + waiting(input, words, starts, j, token)
}

/// The steps, counted over the finished sheet.
pub fn count_steps(input: &Input, words: &[u32], starts: &[usize; 66]) -> u64
    requires { IsBuilt input.now.grammar.now input.now.tokens.now words.now starts.now }
    ensures { result ≡ steps (grammar_of input.now.grammar.now) input.now.tokens.now (sheet_of (grammar_of input.now.grammar.now) input.now.tokens.now) }
{
    let mut steps = rules_of(input, input.grammar.start());
    for j in 0..input.tokens.len() + 1 {
        steps += list_steps(input, words, starts, j);
    }
    steps
}

/// The finished entries of the start symbol with origin 0 on the last list.
pub fn count_tops(input: &Input, words: &[u32], starts: &[usize; 66]) -> usize
    requires { IsBuilt input.now.grammar.now input.now.tokens.now words.now starts.now }
    ensures { result ≡ tops (grammar_of input.now.grammar.now) input.now.tokens.now (sheet_of (grammar_of input.now.grammar.now) input.now.tokens.now) }
{
    let cells = list_of(input, words, starts, input.tokens.len());
    let mut tops = 0;
    for cell in cells {
        let entry = Entry::of_word(*cell % KEYS);
        if entry.rest == 0
            && entry.origin.0 == 0
            && input.grammar.left(entry.rule) == input.grammar.start()
        {
            tops += 1;
        }
    }
    tops
}
