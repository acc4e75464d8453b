#![tactic(auto)]
// An admitted grammar as the layers above ask for it: its rules in rows, filled once per call.

ghost use Rattle.std.specs.Prelude.{◌≡◌, ◌↔◌, [], ◌∷◌, ℕ, None, ◌<◌, ◌≤◌, length, slice_index};
ghost use Rattle.paper.specs.Image.{grammar_of, image_fault};
ghost use Rattle.paper.specs.Bits.{bit_at};
ghost use Rattle.paper.specs.Derivation.{Derives};
ghost use Rattle.paper.specs.Grammar.{IsNonterminal, rule_count, left, members, symbols, IsGrammar};
ghost use Rattle.tables.specs.Table.{bars_of, IsRowOf, Ranked};

mod admit;
pub mod input;
mod machine;
#[cfg(test)]
mod tests;

use paper::{RuleNo, SymbolNo};
use std::marker::Model;

// There is no heap and memory is fixed: arrays of the largest size, with how many of their places count. What bars a member is filled in once all members are
// known, so members and bars are two arrays; a member without its bars would be a value half made. `firsts` has a place more than `ranks`: where the last
// symbol's rules end.

/// One rule: its left symbol, how many members it has, these, and for each the members that bar it, a bit for each.
#[derive(Clone, Copy, Debug)]
pub struct Row {
    pub left: u8,
    pub size: u8,
    pub members: [u8; 8],
    pub bars: [u8; 8],
}

/// An admitted grammar. Contracts see it as the bytes of its image.
#[derive(Drop)]
pub struct Grammar<'a> {
    image: &'a [u8],
    count: usize,
    rows: [Row; 96],
    firsts: [u8; 65],
    ranks: [u8; 64],
    terminals: u8,
    nonterminals: u8,
    start: SymbolNo,
    nonterminal_set: u64,
    empty_set: u64,
}

impl<'a> Model for Grammar<'a> {
    ghost use Rattle.std.specs.Prelude.{List, ℕ};
    ghost use Rattle.tables.specs.Admitted.{IsAdmitted};

    ghost Value = { List ℕ };

    ghost view = { λ g. g.image.now };

    ghost invariant = { λ g. IsAdmitted g.image.now g.count g.rows g.firsts g.ranks g.terminals g.nonterminals g.start g.nonterminal_set g.empty_set };
}

// That h is a rule of this grammar is a fact of two values: no type of a number alone can carry it, so it stands in each contract.
impl Grammar<'_> {
    /// R, the number of rules.
    pub fn rule_count(&self) -> usize
        ensures count { result ≡ rule_count (grammar_of self.now) }
        ensures few { result ≤ 96 }

        // What is known of every admitted grammar.
        ensures admitted { image_fault self.now ≡ None }
        ensures is_grammar { IsGrammar (grammar_of self.now) }
    {
        self.count
    }

    /// T, the number of terminals.
    pub fn terminals(&self) -> u8
        ensures { result ≡ (grammar_of self.now).terminals }
    {
        self.terminals
    }

    /// N, the number of nonterminals.
    pub fn nonterminals(&self) -> u8
        ensures { result ≡ (grammar_of self.now).nonterminals }
    {
        self.nonterminals
    }

    pub fn start(&self) -> SymbolNo
        ensures { result.0 ≡ (grammar_of self.now).start }
    {
        self.start
    }

    /// The row of rule h.
    fn row(&self, h: RuleNo) -> &Row
        requires { h.0 < rule_count (grammar_of self.now) }
        ensures row { IsRowOf (grammar_of self.now) h.0 result.now }
        ensures few { result.now.size ≤ 8 }
    {
        // Borrowed first: that opens the value, which says how few rules there are, before the place of one is worked out.
        let rows = &self.rows;
        &rows[h.0]
    }

    /// The left symbol of rule h.
    pub fn left(&self, h: RuleNo) -> SymbolNo
        requires { h.0 < rule_count (grammar_of self.now) }
        ensures { result.0 ≡ left (grammar_of self.now) h.0 }
    {
        SymbolNo(usize::from(self.row(h).left))
    }

    /// How many members rule h has.
    pub fn size(&self, h: RuleNo) -> usize
        requires { h.0 < rule_count (grammar_of self.now) }
        ensures size { result ≡ length (members (grammar_of self.now) h.0) }
        ensures few { result ≤ 8 }
    {
        usize::from(self.row(h).size)
    }

    /// Member k of rule h.
    pub fn member(&self, h: RuleNo, k: usize) -> SymbolNo
        requires rule { h.0 < rule_count (grammar_of self.now) }
        requires place { k < length (members (grammar_of self.now) h.0) }
        ensures { result.0 ≡ slice_index (members (grammar_of self.now) h.0) k }
    {
        SymbolNo(usize::from(self.row(h).members[k]))
    }

    /// The members of rule h that bar member k, a bit for each.
    pub fn bars(&self, h: RuleNo, k: usize) -> u8
        requires rule { h.0 < rule_count (grammar_of self.now) }
        requires place { k < length (members (grammar_of self.now) h.0) }
        ensures { result ≡ bars_of (grammar_of self.now) (members (grammar_of self.now) h.0) k }
    {
        self.row(h).bars[k]
    }

    /// The nonterminals, a bit for each.
    pub fn nonterminal_set(&self) -> u64
        ensures { (x : ℕ) → (bit_at x result ≡ 1) ↔ IsNonterminal (grammar_of self.now) x }
    {
        self.nonterminal_set
    }

    /// The symbols that derive the empty row, a bit for each.
    pub fn empty_set(&self) -> u64
        ensures { (x : ℕ) → (bit_at x result ≡ 1) ↔ Derives (grammar_of self.now) (x ∷ []) [] }
    {
        self.empty_set
    }

    /// The rank of each symbol that derives the empty row; 0 for the others.
    pub fn ranks(&self) -> &[u8; 64]
        ensures { Ranked (grammar_of self.now) result.now }
    {
        &self.ranks
    }

    /// The number of the first rule whose left symbol is a or a later one.
    pub fn first(&self, a: SymbolNo) -> usize
        requires { a.0 ≤ symbols (grammar_of self.now) }
        ensures few { result ≤ rule_count (grammar_of self.now) }
        ensures before { (h : ℕ) → h < result → left (grammar_of self.now) h < a.0 }
        ensures from { (h : ℕ) → result ≤ h → h < rule_count (grammar_of self.now) → a.0 ≤ left (grammar_of self.now) h }
    {
        usize::from(self.firsts[a.0])
    }

    /// The bytes of the image.
    pub fn image(&self) -> &[u8]
        ensures { result.now ≡ self.now }
    {
        self.image
    }
}
