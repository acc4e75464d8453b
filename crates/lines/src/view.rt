// The words under a line.

ghost use Rattle.std.specs.Prelude.{◌≡◌, List, ℕ, Option, IfOk};
ghost use Rattle.std.specs.Result.{result_err};
ghost use Rattle.paper.specs.Lines.{line_from, line_to};
ghost use Rattle.paper.specs.Outcome.{ViewOutcome, view_number};
ghost use Rattle.paper.specs.declared.Refusal.{Refusal};
ghost use Rattle.lines.specs.View.{part_between, view_from, bytes_on};

use crate::calls::check;
use crate::line::{count, from, to};
use paper::{Place, Refusal};

/// Where the words under line k begin and end, or why there are none.
pub fn view_places(
    image: &[u8],
    tokens: &[u8],
    lines: &[u16],
    k: usize,
) -> Result<(Place, Place), Refusal>
    ensures outcome { ViewOutcome image.now tokens.now lines.now k (result_err result) (part_between tokens.now result) }
    ensures places { IfOk result (λ places. (places.0.0 ≡ line_from lines.now k) × (places.1.0 ≡ line_to lines.now k)) }
{
    if check(image, tokens, lines)?.is_some() {
        return Err(Refusal::InvalidLines);
    }
    if k >= count(lines) {
        return Err(Refusal::NoLine);
    }
    Ok((Place(from(lines, k)), Place(to(lines, k))))
}

/// The words under line k, as that part of the row; the empty part at place 0 if it is refused.
pub fn view<'a>(image: &[u8], tokens: &'a [u8], lines: &[u16], k: usize) -> &'a [u8]
    ensures outcome { (refusal : Option Refusal) × ViewOutcome image.now tokens.now lines.now k refusal result.now }

    // It is that very part of the row, in the same memory, and no copy.
    ensures part { (refusal : Option Refusal) → ViewOutcome image.now tokens.now lines.now k refusal result.now → result.ref_ptr ≡ bytes_on tokens.entry.ref_ptr (view_from lines.now k refusal) }
{
    match view_places(image, tokens, lines, k) {
        Ok((from, to)) => &tokens[from.0..to.0],
        Err(_) => &tokens[..0],
    }
}

/// Why a view is refused, if it is.
pub fn view_refusal(image: &[u8], tokens: &[u8], lines: &[u16], k: usize) -> Option<Refusal>
    ensures { (view : List ℕ) × ViewOutcome image.now tokens.now lines.now k result view }
{
    view_places(image, tokens, lines, k).err()
}

/// The number of a view: that of its refusal, or 0 if it is accepted.
pub fn view_number(image: &[u8], tokens: &[u8], lines: &[u16], k: usize) -> u8
    ensures { (refusal : Option Refusal) × (view : List ℕ) × ViewOutcome image.now tokens.now lines.now k refusal view × (result ≡ view_number refusal) }
{
    match view_refusal(image, tokens, lines, k) {
        None => 0,
        Some(why) => why.number(),
    }
}
