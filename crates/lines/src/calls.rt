// The public calls on derivation lines.

ghost use Rattle.paper.specs.Outcome.{CheckingOutcome};

use crate::check::first_fault;
use paper::Refusal;
use tables::Grammar;
use tables::input::Input;

/// Checks lines: None if they are valid, else the number of the first line at fault.
pub fn check(image: &[u8], tokens: &[u8], lines: &[u16]) -> Result<Option<usize>, Refusal>
    ensures { CheckingOutcome image.now tokens.now lines.now result }
{
    let grammar = Grammar::admit(image)?;
    let input = Input::new(&grammar, tokens)?;
    Ok(first_fault(&input, lines))
}
