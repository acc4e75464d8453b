#![tactic(auto)]
// What a grammar and a row of so many tokens can cost at the most.

ghost use Rattle.std.specs.Prelude.{◌≡◌, cond, ◌+◌, ◌*◌, ◌/◌, ◌^◌, ◌≤◌, eqb};
ghost use Rattle.paper.specs.Outcome.{pricing};

pub mod laws;
mod rests;
#[cfg(test)]
mod tests;

use crate::rests::count_rests;
use paper::{Bounds, Refusal};
use tables::Grammar;

/// The bound on entries, for so many rests and n tokens.
fn most_entries(rests: u64, n: u64) -> u64
    requires few { rests ≤ 96 * 256 }
    requires short { n ≤ 64 }
    ensures { result ≡ rests * (n + 1) * (n + 2) / 2 }
{
    let twice = rests * (n + 1) * (n + 2);
    twice / 2
}

/// The bound on steps, for so many rules, rests and entries and n tokens.
fn most_steps(rules: u64, rests: u64, entries: u64, n: u64) -> u64
    requires few_rules { rules ≤ 96 }
    requires few { rests ≤ 96 * 256 }
    requires few_entries { entries ≤ 2 ^ 32 }
    requires short { n ≤ 64 }
    ensures { result ≡ rules + entries + entries * rules + rules * rests * (n + 1) * (n + 2) * (n + 3) / 6 }
{
    rules + entries + entries * rules + rules * rests * (n + 1) * (n + 2) * (n + 3) / 6
}

/// The bound on lines, for so many nonterminals and n tokens.
fn most_lines(nonterminals: u64, n: u64) -> u64
    requires few { nonterminals ≤ 64 }
    requires short { n ≤ 64 }
    ensures { result ≡ cond (eqb n 0) nonterminals (3 * n * nonterminals) }
{
    if n == 0 {
        nonterminals
    } else {
        3 * n * nonterminals
    }
}

/// What a grammar and a row of n tokens can cost at the most: D, the entries, the steps and the lines.
pub fn price(image: &[u8], n: usize) -> Result<Bounds, Refusal>
    ensures { result ≡ pricing image.now n }
{
    let grammar = Grammar::admit(image)?;
    if n > 64 {
        return Err(Refusal::LongRow);
    }
    let n = n as u64;
    let rests = count_rests(&grammar);
    let entries = most_entries(rests, n);
    Ok(Bounds {
        rests,
        entries,
        steps: most_steps(grammar.rule_count() as u64, rests, entries, n),
        lines: most_lines(u64::from(grammar.nonterminals()), n),
    })
}
