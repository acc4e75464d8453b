// The lists of the sheet, one after the other.

ghost use Rattle.std.specs.Prelude.{List, [], ℕ, ◌≡◌, ◌+◌, ◌≤◌, ◌<◌, OnOk, IfOk, IfErr, length, replicate, slice_set, take};
ghost use Rattle.paper.specs.Image.{grammar_of};
ghost use Rattle.sheet.specs.Growing.{IsListOf};
ghost use Rattle.sheet.specs.Grown.{base_of, cells_of, IsState, IsTooMany, IsBuilt};
ghost use Rattle.sheet.specs.Stages.{list_in, starts_with, IsCausedList};

use crate::grow::{Lists, advance, complete, predict};
use paper::{Refusal, SymbolNo};
use tables::input::Input;

/// No list yet: list 0 is open, and the start symbol is looked for.
fn first_lists(input: &Input) -> Lists
    ensures state { (words : List ℕ) → IsState input.now.grammar.now input.now.tokens.now words result }
    ensures place { result.place ≡ 0 }
    ensures starts { result.starts ≡ replicate 66 0 }
    ensures none { (words : List ℕ) → cells_of words result ≡ [] }
{
    Lists {
        place: 0,
        starts: [0; 66],
        end: 0,
        found: [0; 64],
        want: 1 << input.grammar.start().0,
    }
}

/// Lets the open list grow until nothing is to be found any more.
fn grow(input: &Input, words: &mut [u32], lists: &mut Lists) -> Result<(), Refusal>
    requires state { IsState input.now.grammar.now input.now.tokens.now words.old lists.old }
    requires none { cells_of words.old lists.old ≡ [] }
    ensures state { OnOk result (IsState input.now.grammar.now input.now.tokens.now words.new lists.new) }
    ensures place { OnOk result (lists.new.place ≡ lists.old.place) }
    ensures starts { OnOk result (lists.new.starts ≡ lists.old.starts) }
    ensures list { OnOk result (IsListOf (grammar_of input.now.grammar.now) input.now.tokens.now lists.old.place (cells_of words.new lists.new)) }
    ensures caused { OnOk result (IsCausedList (grammar_of input.now.grammar.now) input.now.tokens.now (list_in (starts_with lists.new) words.new) lists.new.place) }
    ensures earlier { OnOk result (take (base_of lists.old) words.new ≡ take (base_of lists.old) words.old) }
    ensures few { IfErr result (λ why. (why ≡ Refusal.FewWords) × IsTooMany input.now.grammar.now input.now.tokens.now (length words.old)) }
{
    let j = lists.place;
    if j > 0 {
        let token = SymbolNo(usize::from(input.tokens[usize::from(j) - 1]));
        advance(input, words, lists, j - 1, token, 0)?;
    }
    for i in (0..j).rev() {
        complete(input, words, lists, i)?;
    }
    predict(input, words, lists)
}

/// Opens the list behind one that is done.
fn open_next(input: &Input, words: &[u32], lists: &mut Lists)
    requires state { IsState input.now.grammar.now input.now.tokens.now words.now lists.old }
    requires list { IsListOf (grammar_of input.now.grammar.now) input.now.tokens.now lists.old.place (cells_of words.now lists.old) }
    requires more { lists.old.place < length input.now.tokens.now }
    ensures state { IsState input.now.grammar.now input.now.tokens.now words.now lists.new }
    ensures place { lists.new.place ≡ lists.old.place + 1 }
    ensures starts { lists.new.starts ≡ slice_set lists.old.starts lists.new.place lists.old.end }
    ensures none { cells_of words.now lists.new ≡ [] }
{
    lists.place += 1;
    lists.starts[usize::from(lists.place)] = lists.end;
    lists.found = [0; 64];
    lists.want = 0;
}

/// Builds lists 0 to n, and answers where each starts.
pub fn build(input: &Input, words: &mut [u32]) -> Result<[usize; 66], Refusal>
    ensures built { IfOk result (IsBuilt input.now.grammar.now input.now.tokens.now words.new) }
    ensures caused { IfOk result (λ starts. (e : ℕ) → e ≤ length input.now.tokens.now → IsCausedList (grammar_of input.now.grammar.now) input.now.tokens.now (list_in starts words.new) e) }
    ensures few { IfErr result (λ why. (why ≡ Refusal.FewWords) × IsTooMany input.now.grammar.now input.now.tokens.now (length words.old)) }
{
    let mut lists = first_lists(input);
    for _ in 0..input.tokens.len() {
        grow(input, words, &mut lists)?;
        open_next(input, words, &mut lists);
    }
    grow(input, words, &mut lists)?;
    lists.starts[input.tokens.len() + 1] = lists.end;
    Ok(lists.starts)
}
