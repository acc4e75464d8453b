// What a reading is given.

ghost use Rattle.std.specs.Prelude.{◌≡◌, [], ◌∷◌, IfOk, length};
ghost use Rattle.std.specs.Result.{result_err};
ghost use Rattle.paper.specs.Demands.{IsFit};
ghost use Rattle.paper.specs.Image.{all_below, grammar_of};
ghost use Rattle.paper.specs.Outcome.{first_of, too_long, strange};
ghost use Rattle.tables.specs.Table.{Ranked};

use crate::Grammar;
use paper::Refusal;

/// A row of tokens, the grammar that is to read it, and the ranks of its symbols. No token is anything but a terminal, and there are 64 at the most.
#[derive(Drop)]
pub struct Input<'a> {
    pub grammar: &'a Grammar<'a>,
    pub tokens: &'a [u8],
    pub ranks: &'a [u8; 64],
    ghost fits: { IsFit grammar.now tokens.now },
    ghost ranked: { ∥ Ranked (grammar_of grammar.now) ranks.now ∥₁ },
}

/// Whether all tokens are below the limit.
fn are_below(tokens: &[u8], limit: u8) -> bool
    ensures { result ≡ all_below limit tokens.now }
{
    tokens.iter().all(|token| *token < limit)
}

impl<'a> Input<'a> {
    /// The row for this grammar, if it has 64 tokens at the most and all are terminals.
    pub fn new(grammar: &'a Grammar<'a>, tokens: &'a [u8]) -> Result<Self, Refusal>
        ensures refused { result_err result ≡ first_of (too_long (length tokens.now) ∷ strange (grammar_of grammar.now) tokens.now ∷ []) }
        ensures input { IfOk result (λ input. (input.grammar.now ≡ grammar.now) × (input.tokens.now ≡ tokens.now)) }
    {
        // Opens the value: what an admitted image means is a grammar.
        let _ = &grammar.image;
        if tokens.len() > 64 {
            return Err(Refusal::LongRow);
        }
        if !are_below(tokens, grammar.terminals()) {
            return Err(Refusal::StrangeToken);
        }
        Ok(Input {
            grammar,
            tokens,
            ranks: grammar.ranks(),
        })
    }
}
