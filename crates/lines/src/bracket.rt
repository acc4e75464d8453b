// The bracket of lines. It is written twice by the same functions: first into an empty buffer, which tells how long it is or that it passes the limit, then
// into the lent one. So nothing is written where it does not fit, and the time stays within the limit however long a bracket of shared lines would grow.

ghost use Rattle.std.specs.Prelude.{◌≡◌, ℕ, [], ◌∷◌, ◌<◌, ◌≤◌, None, OnSome, length};
ghost use Rattle.paper.specs.Image.{grammar_of};
ghost use Rattle.paper.specs.Lines.{line_count, line_from, decimal, parts_text, texts_below, part_slots, bracket_of, LineRight, Valid};
ghost use Rattle.paper.specs.Outcome.{last_bracket, padded, BracketingOutcome};
ghost use Rattle.lines.specs.Bracket.{end_within, IsWrittenAt};

use crate::check::first_fault;
use crate::line::{count, from, parts, rule, slot, to};
use paper::Refusal;
use tables::Grammar;
use tables::input::Input;

/// Puts a byte at a place, if that is within the buffer, and answers the next place, if that is within the limit.
fn put(buffer: &mut [u8], at: usize, limit: usize, byte: u8) -> Option<usize>
    ensures end { result ≡ end_within limit at (byte ∷ []) }
    ensures text { OnSome result (IsWrittenAt buffer.old at (byte ∷ []) buffer.new) }
{
    if at >= limit {
        return None;
    }
    if at < buffer.len() {
        buffer[at] = byte;
    }
    Some(at + 1)
}

/// Puts a number of 16 bits in decimal.
fn put_number(buffer: &mut [u8], at: usize, limit: usize, number: u16) -> Option<usize>
    ensures end { result ≡ end_within limit at (decimal number) }
    ensures text { OnSome result (IsWrittenAt buffer.old at (decimal number) buffer.new) }
{
    let mut at = at;
    let mut power: u16 = 10_000;
    while power > 0 {
        if number >= power || power == 1 {
            at = put(buffer, at, limit, b'0' + (number / power % 10) as u8)?;
        }
        power /= 10;
    }
    Some(at)
}

/// Puts the bracket of line k.
#[cycle(bracket)]
fn put_line(
    input: &Input,
    lines: &[u16],
    k: usize,
    buffer: &mut [u8],
    at: usize,
    limit: usize,
) -> Option<usize>
    requires line { k < line_count lines.now }
    requires right { (i : ℕ) → i ≤ k → LineRight (grammar_of input.now.grammar.now) input.now.tokens.now lines.now i }
    ensures end { result ≡ end_within limit at (bracket_of input.now.tokens.now lines.now k) }
    ensures text { OnSome result (IsWrittenAt buffer.old at (bracket_of input.now.tokens.now lines.now k) buffer.new) }
{
    let at = put(buffer, at, limit, b'(')?;
    let at = put_number(buffer, at, limit, rule(lines, k) as u16)?;
    let at = put_parts(input, lines, k, buffer, at, limit)?;
    put(buffer, at, limit, b')')
}

/// Puts the parts of line k: a space and the token, or the bracket of the part's own line, which is an earlier one.
#[cycle(bracket)]
fn put_parts(
    input: &Input,
    lines: &[u16],
    k: usize,
    buffer: &mut [u8],
    at: usize,
    limit: usize,
) -> Option<usize>
    requires line { k < line_count lines.now }
    requires within { at ≤ limit }
    requires right { (i : ℕ) → i ≤ k → LineRight (grammar_of input.now.grammar.now) input.now.tokens.now lines.now i }
    ensures end { result ≡ end_within limit at (parts_text input.now.tokens.now lines.now (texts_below input.now.tokens.now lines.now k) (part_slots lines.now k) (line_from lines.now k)) }
    ensures text { OnSome result (IsWrittenAt buffer.old at (parts_text input.now.tokens.now lines.now (texts_below input.now.tokens.now lines.now k) (part_slots lines.now k) (line_from lines.now k)) buffer.new) }
{
    let mut place = from(lines, k);
    let mut at = at;
    for x in 0..parts(lines, k) {
        let part = slot(lines, k, x);
        if part == 0 {
            at = put(buffer, at, limit, b' ')?;
            at = put_number(buffer, at, limit, u16::from(input.tokens[place]))?;
            place += 1;
        } else {
            at = put_line(input, lines, part - 1, buffer, at, limit)?;
            place = to(lines, part - 1);
        }
    }
    Some(at)
}

/// Writes the bracket of the last of valid lines, and 0 behind it, if it is not longer than the buffer. Answers its length.
fn write_last(input: &Input, lines: &[u16], buffer: &mut [u8]) -> Option<usize>
    requires { Valid (grammar_of input.now.grammar.now) input.now.tokens.now lines.now }
    ensures end { result ≡ end_within (length buffer.old) 0 (last_bracket input.now.tokens.now lines.now) }
    ensures long { result ≡ None → buffer.new ≡ buffer.old }
    ensures text { OnSome result (buffer.new ≡ padded (last_bracket input.now.tokens.now lines.now) (length buffer.old)) }
{
    let last = count(lines) - 1;
    let end = put_line(input, lines, last, &mut [], 0, buffer.len())?;
    let _ = put_line(input, lines, last, buffer, 0, end);
    buffer[end..].fill(0);
    Some(end)
}

/// Writes the bracket of the last line, and answers its length.
pub fn bracket(
    image: &[u8],
    tokens: &[u8],
    lines: &[u16],
    buffer: &mut [u8],
) -> Result<usize, Refusal>
    ensures { BracketingOutcome image.now tokens.now lines.now buffer.old result buffer.new }
{
    let grammar = Grammar::admit(image)?;
    let input = Input::new(&grammar, tokens)?;
    if first_fault(&input, lines).is_some() {
        return Err(Refusal::InvalidLines);
    }
    write_last(&input, lines, buffer).ok_or(Refusal::LongBracket)
}
