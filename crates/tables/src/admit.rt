// Filling the table of an admitted grammar from the bytes of its image.

ghost use Rattle.std.specs.Prelude.{◌≡◌, ◌↔◌, ℕ, ◌+◌, ◌<◌, ◌≤◌, IsTrue, None, IfOk, true, length, slice_index, get_or, drop};
ghost use Rattle.std.specs.Result.{result_err};
ghost use Rattle.paper.specs.Bits.{bit_at};
ghost use Rattle.paper.specs.Image.{byte, rule_of, image_fault, grammar_of};
ghost use Rattle.paper.specs.Grammar.{rule_count};
ghost use Rattle.paper.specs.Outcome.{image_refusal};
ghost use Rattle.paper.specs.Records.{record_at};
ghost use Rattle.tables.specs.Rows.{IsRecord, alone, member_of, IsSmall, AreSmall, LeftsAscend, LeftsWithin, MembersRanked, AreGiven, IsClosed};
ghost use Rattle.tables.specs.Table.{bars_of, IsRowOf, row_at, rank};

use crate::{Grammar, Row};
use image::contents::body;
use image::order::later_symbols;
use paper::{Refusal, SymbolNo};

/// The members that bar member k, a bit for each.
fn bars_of_member(members: &[u8], k: usize, later: &[u64; 64]) -> u8
    requires few { length members.now ≤ 8 }
    requires below { (x : ℕ) → x < length members.now → slice_index members.now x < 64 }
    requires place { k < length members.now }
    ensures { result ≡ bars_of (alone later.now (record { left = 0; members = members.now })) members.now k }
{
    let mut bars = 0;
    for x in 0..members.len() {
        let precedes = later[usize::from(members[x])] >> members[k] & 1 == 1;
        if precedes || (x < k && members[x] == members[k]) {
            bars |= 1 << x;
        }
    }
    bars
}

/// For each member, the members that bar it.
fn fill_bars(members: &[u8], later: &[u64; 64]) -> [u8; 8]
    requires few { length members.now ≤ 8 }
    requires below { (x : ℕ) → x < length members.now → slice_index members.now x < 64 }
    ensures { (k : ℕ) → k < length members.now → slice_index result k ≡ bars_of (alone later.now (record { left = 0; members = members.now })) members.now k }
{
    let mut bars = [0; 8];
    for k in 0..members.len() {
        bars[k] = bars_of_member(members, k, later);
    }
    bars
}

/// The members, in the fixed place that a row has for them.
fn symbols_of(members: &[u8]) -> [u8; 8]
    requires { length members.now ≤ 8 }
    ensures { (k : ℕ) → k < length members.now → slice_index result k ≡ slice_index members.now k }
{
    let mut symbols = [0; 8];
    for (k, member) in members.iter().enumerate() {
        symbols[k] = *member;
    }
    symbols
}

/// The row of the record at the front of these bytes.
fn row_of(bytes: &[u8], later: &[u64; 64]) -> Row
    requires { IsRecord bytes.now }
    ensures row { IsRowOf (alone later.now (rule_of bytes.now)) 0 result }
    ensures size { result.size ≡ byte bytes.now 1 }
{
    let members = &bytes[2..2 + usize::from(bytes[1])];
    Row {
        left: bytes[0],
        size: bytes[1],
        members: symbols_of(members),
        bars: fill_bars(members, later),
    }
}

/// The rows of the records that stand behind the count, one after the other.
fn fill_rows(rules: &[u8], later: &[u64; 64]) -> [Row; 96]
    requires counted { 1 ≤ length rules.now }
    requires few { byte rules.now 0 ≤ 96 }
    requires records { (h : ℕ) → h < byte rules.now 0 → IsRecord (record_at h (drop 1 rules.now)) }
    ensures long { length result ≡ 96 }
    ensures filled { (h : ℕ) → h < byte rules.now 0 → IsRowOf (alone later.now (rule_of (record_at h (drop 1 rules.now)))) 0 (row_at result h) }
{
    let mut rows = [Row {
        left: 0,
        size: 0,
        members: [0; 8],
        bars: [0; 8],
    }; 96];
    let mut records = &rules[1..];
    for h in 0..usize::from(rules[0]) {
        rows[h] = row_of(records, later);
        records = &records[2 + usize::from(records[1])..];
    }
    rows
}

/// The rows of an admitted image.
#[tactic(auto, using(crate::proofs::Admitting::image_facts))]
fn rows_of(image: &[u8]) -> [Row; 96]
    requires { image_fault image.now ≡ None }
    ensures long { length result ≡ 96 }
    ensures rows { (h : ℕ) → h < rule_count (grammar_of image.now) → IsRowOf (grammar_of image.now) h (row_at result h) }
{
    let later = later_symbols(body(image, 2));
    fill_rows(body(image, 1), &later)
}

// One pass over the rules serves all symbols, so the search goes on where the last one stopped.

/// The number of the first rule from h on whose left symbol is a or a later one.
fn first_from(rows: &[Row], h: usize, a: u8) -> usize
    requires { h ≤ length rows.now }
    ensures from { h ≤ result }
    ensures few { result ≤ length rows.now }
    ensures before { (i : ℕ) → h ≤ i → i < result → (row_at rows.now i).left < a }
    ensures there { result < length rows.now → a ≤ (row_at rows.now result).left }
{
    for first in h..rows.len() {
        if a <= rows[first].left {
            return first;
        }
    }
    rows.len()
}

/// For each symbol, the number of the first rule whose left symbol is that or a later one.
fn firsts_of(rows: &[Row]) -> [u8; 65]
    requires few { length rows.now ≤ 96 }
    requires ascend { LeftsAscend rows.now }
    ensures few { (a : ℕ) → a ≤ 64 → slice_index result a ≤ length rows.now }
    ensures before { (a h : ℕ) → a ≤ 64 → h < slice_index result a → (row_at rows.now h).left < a }
    ensures from { (a h : ℕ) → a ≤ 64 → slice_index result a ≤ h → h < length rows.now → a ≤ (row_at rows.now h).left }
{
    let mut firsts = [0; 65];
    let mut first = 0;
    for a in 0..65 {
        first = first_from(rows, first, a);
        firsts[usize::from(a)] = first as u8;
    }
    firsts
}

// A rank of 0 says that there is none: a byte a symbol, with no heap and in fixed memory.

/// Whether all members of the row have a rank.
fn are_members_ranked(row: &Row, ranks: &[u8; 64]) -> bool
    requires { IsSmall row.now }
    ensures { IsTrue result ↔ ((k : ℕ) → k < row.now.size → 1 ≤ rank ranks.now (member_of row.now k)) }
{
    for k in 0..usize::from(row.size) {
        if ranks[usize::from(row.members[k])] == 0 {
            return false;
        }
    }
    true
}

/// Gives the next ranks: the left symbol of a rule gets one once it has none and all members have one. Answers how many are given.
fn give_ranks(rows: &[Row], ranks: &mut [u8; 64], given: u8) -> u8
    requires small { AreSmall rows.now }
    requires are_given { AreGiven rows.now ranks.old given }
    ensures are_given { AreGiven rows.now ranks.new result }
    ensures up { given ≤ result }
    ensures few { result ≤ 64 }
    ensures closed { result ≡ given → (h : ℕ) → h < length rows.now → IsClosed rows.now ranks.new h }
{
    let mut last = given;
    for row in rows {
        let left = usize::from(row.left);
        if ranks[left] == 0 && are_members_ranked(row, ranks) {
            last += 1;
            ranks[left] = last;
        }
    }
    last
}

/// The ranks: a symbol gets one, 1 or more, once a rule of it has only members with lower ones.
fn ranks_of(rows: &[Row]) -> [u8; 64]
    requires { AreSmall rows.now }
    ensures given { (given : ℕ) × AreGiven rows.now result given }
    ensures closed { (h : ℕ) → h < length rows.now → IsClosed rows.now result h }
{
    let mut ranks = [0; 64];
    let mut given = 0;
    loop {
        let last = give_ranks(rows, &mut ranks, given);
        if last == given {
            return ranks;
        }
        given = last;
    }
}

/// The symbols with a rank, a bit for each.
fn ranked_set(ranks: &[u8; 64]) -> u64
    ensures { (x : ℕ) → (bit_at x result ≡ 1) ↔ (1 ≤ rank ranks.now x) }
{
    let mut set = 0;
    for x in 0..64 {
        if ranks[x] != 0 {
            set |= 1 << x;
        }
    }
    set
}

/// The symbols from T to T+N-1, a bit for each.
fn set_from(terminals: u8, nonterminals: u8) -> u64
    requires a_terminal { 1 ≤ terminals }
    requires a_nonterminal { 1 ≤ nonterminals }
    requires few { terminals + nonterminals ≤ 64 }
    ensures { (x : ℕ) → (bit_at x result ≡ 1) ↔ ((terminals ≤ x) × (x < terminals + nonterminals)) }
{
    ((1 << nonterminals) - 1) << terminals
}

/// The grammar that an admitted image means.
#[tactic(auto, using(crate::proofs::Admitting::image_facts))]
fn table_of<'a>(image: &'a [u8]) -> Grammar<'a>
    requires { image_fault image.now ≡ None }
    ensures { result ≡ image.now }
{
    let symbols = body(image, 0);
    let rules = body(image, 1);
    let count = usize::from(rules[0]);
    let rows = rows_of(image);
    let filled = &rows[..count];
    let firsts = firsts_of(filled);
    let ranks = ranks_of(filled);
    Grammar {
        image,
        count,
        rows,
        firsts,
        ranks,
        terminals: symbols[0],
        nonterminals: symbols[1],
        start: SymbolNo(usize::from(symbols[2])),
        nonterminal_set: set_from(symbols[0], symbols[1]),
        empty_set: ranked_set(&ranks),
    }
}

impl<'a> Grammar<'a> {
    /// The grammar that an image means, or why the image is refused.
    pub fn admit(image: &'a [u8]) -> Result<Self, Refusal>
        ensures refused { result_err result ≡ image_refusal image.now }
        ensures grammar { IfOk result (λ grammar. grammar ≡ image.now) }
    {
        image::check(image)?;
        Ok(table_of(image))
    }
}
