// The finished sheet: the words alone, and zeros behind them.

ghost use Rattle.std.specs.Prelude.{◌≡◌, ◌++◌, ◌-◌, ◌≤◌, map, length, take, drop, replicate};
ghost use Rattle.paper.specs.Image.{grammar_of};
ghost use Rattle.paper.specs.Sheet.{entries};
ghost use Rattle.paper.specs.Building.{sheet_of};
ghost use Rattle.paper.specs.Outcome.{sheet_words, padded};
ghost use Rattle.sheet.specs.Cells.{key};
ghost use Rattle.sheet.specs.Grown.{IsBuilt};

use crate::list::KEYS;
use tables::input::Input;

/// Leaves of each cell before the end the word alone.
fn wipe(words: &mut [u32], end: usize)
    requires { end ≤ length words.old }
    ensures { words.new ≡ map key (take end words.old) ++ drop end words.old }
{
    for at in 0..end {
        words[at] %= KEYS;
    }
}

/// Leaves the sheet's words alone, list behind list, and zeros behind them.
pub fn finish(input: &Input, words: &mut [u32], starts: &[usize; 66])
    requires { IsBuilt input.now.grammar.now input.now.tokens.now words.old starts.now }
    ensures { words.new ≡ padded (sheet_words (grammar_of input.now.grammar.now) (sheet_of (grammar_of input.now.grammar.now) input.now.tokens.now)) (length words.old) }
{
    let end = starts[input.tokens.len() + 1];
    wipe(words, end);
    words[end..].fill(0);
}
