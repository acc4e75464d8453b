// A rule as a little machine on a byte: a bit is set for each member that is still to be found. What may be taken, and what is then left.

ghost use Rattle.std.specs.Prelude.{◌≡◌, ◌↔◌, ℕ, true, false, ◌<◌, MatchOption, IfSome, length};
ghost use Rattle.paper.specs.Bits.{bit_at};
ghost use Rattle.paper.specs.Grammar.{rule_count, members};
ghost use Rattle.paper.specs.Image.{grammar_of};
ghost use Rattle.paper.specs.Sheet.{rest_of};
ghost use Rattle.tables.specs.Machine.{full_byte, IsByte, may_be_taken, Leaves};

use crate::Grammar;
use paper::{RuleNo, SymbolNo};

impl Grammar<'_> {
    /// The byte of rule h with nothing found yet.
    pub fn full(&self, h: RuleNo) -> u8
        requires { h.0 < rule_count (grammar_of self.now) }
        ensures value { result ≡ full_byte (grammar_of self.now) h.0 }
        ensures byte { IsByte (grammar_of self.now) h.0 result }
    {
        ((1u16 << self.size(h)) - 1) as u8
    }

    /// What is left of the rest when symbol a is taken from it, if it may be.
    pub fn take(&self, h: RuleNo, rest: u8, a: SymbolNo) -> Option<u8>
        requires rule { h.0 < rule_count (grammar_of self.now) }
        requires byte { IsByte (grammar_of self.now) h.0 rest }
        ensures left { MatchOption result (may_be_taken (grammar_of self.now) h.0 rest a.0 ≡ false) (Leaves (grammar_of self.now) h.0 a.0 rest) }
        ensures byte { IfSome result (IsByte (grammar_of self.now) h.0) }
        ensures smaller { IfSome result (λ left. left < rest) }
    {
        let mut untried = rest;
        while untried != 0 {
            let k = untried.trailing_zeros() as usize;
            if self.member(h, k) == a && rest & self.bars(h, k) == 0 {
                return Some(rest - (1 << k));
            }
            untried -= 1 << k;
        }
        None
    }

    /// The symbols that may be taken from the rest, a bit for each.
    pub fn takeable(&self, h: RuleNo, rest: u8) -> u64
        requires rule { h.0 < rule_count (grammar_of self.now) }
        requires byte { IsByte (grammar_of self.now) h.0 rest }
        ensures { (a : ℕ) → (bit_at a result ≡ 1) ↔ (may_be_taken (grammar_of self.now) h.0 rest a ≡ true) }
    {
        // Opens the value: an admitted grammar has no symbol above 63.
        let _ = &self.image;
        let mut symbols = 0;
        let mut untried = rest;
        while untried != 0 {
            let k = untried.trailing_zeros() as usize;
            if rest & self.bars(h, k) == 0 {
                symbols |= 1 << self.member(h, k).0;
            }
            untried -= 1 << k;
        }
        symbols
    }

    /// How many members are left in the rest.
    pub fn members_left(&self, h: RuleNo, rest: u8) -> usize
        requires rule { h.0 < rule_count (grammar_of self.now) }
        requires byte { IsByte (grammar_of self.now) h.0 rest }
        ensures { result ≡ length (rest_of (members (grammar_of self.now) h.0) rest) }
    {
        rest.count_ones() as usize
    }

    /// The byte from which taking symbol a leaves this rest, if there is one.
    pub fn put_back(&self, h: RuleNo, rest: u8, a: SymbolNo) -> Option<u8>
        requires rule { h.0 < rule_count (grammar_of self.now) }
        requires byte { IsByte (grammar_of self.now) h.0 rest }
        ensures left { MatchOption result ((n : ℕ) → ¬ Leaves (grammar_of self.now) h.0 a.0 n rest) (λ n. Leaves (grammar_of self.now) h.0 a.0 n rest) }
        ensures byte { IfSome result (IsByte (grammar_of self.now) h.0) }
        ensures larger { IfSome result (λ before. rest < before) }
    {
        let mut found = self.full(h) - rest;
        while found != 0 {
            let k = 7 - found.leading_zeros() as usize;
            if self.member(h, k) == a {
                let before = rest + (1 << k);
                return if before & self.bars(h, k) == 0 {
                    Some(before)
                } else {
                    None
                };
            }
            found -= 1 << k;
        }
        None
    }
}
