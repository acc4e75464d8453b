#![tactic(auto)]
// The numbers that Shieber keeps apart, and the answers of every public call.

pub mod laws;

use thiserror::Error;

// Three types of one shape: `RuleNo`, `SymbolNo` and `Place` are there to be told apart; one `Number<Rule>` with three empty tag types would be six types for three.

/// The number of a rule: Shieber's h (G2).
#[derive(Clone, Copy, Debug, PartialEq, Eq, PartialOrd, Ord, Hash)]
pub struct RuleNo(pub usize);

/// The number of a symbol: Shieber's A (G1).
#[derive(Clone, Copy, Debug, PartialEq, Eq, PartialOrd, Ord, Hash)]
pub struct SymbolNo(pub usize);

/// A place between tokens: Shieber's i. Place 0 is before the first token (S1).
#[derive(Clone, Copy, Debug, PartialEq, Eq, PartialOrd, Ord, Hash)]
pub struct Place(pub usize);

/// Why a call is refused, in the order of the tests (docs/RULES.md, "What comes back"). Each has the number that programs print and that C gets.
#[derive(Clone, Copy, Debug, PartialEq, Eq, Hash, Error)]
pub enum Refusal {
    #[error("the image is too short, or its contents are wrong")]
    Contents = 10,
    #[error("the symbols body is wrong")]
    Symbols = 11,
    #[error("the rules body is wrong")]
    Rules = 12,
    #[error("the order body has an odd length, a pair out of range or a pair out of order")]
    Order = 13,
    #[error("the order has a symbol before itself, or a chain without its closing pair")]
    Chain = 14,
    #[error("the row has more than 64 tokens")]
    LongRow = 20,
    #[error("a token is no terminal")]
    StrangeToken = 21,
    #[error("there are too few starts")]
    FewStarts = 22,
    #[error("the line buffer is too short")]
    FewLines = 23,
    #[error("the sheet is too short")]
    FewWords = 24,
    #[error("the lines are not valid")]
    InvalidLines = 30,
    #[error("the bracket is longer than its buffer")]
    LongBracket = 31,
    #[error("there is no such line")]
    NoLine = 32,
}

impl Refusal {
    ghost use Rattle.std.specs.Prelude.{◌≡◌};
    ghost use Rattle.paper.specs.Refusal.{number_of};

    // A method and no `From`: at a call `why.number()` says what the byte is.
    /// The number that programs print and that C gets.
    pub fn number(self) -> u8
        ensures { result ≡ number_of self }
    {
        self as u8
    }
}

/// Why an image is refused, and the number of the first rule or pair at fault (0 for a fault of contents or symbols).
#[derive(Clone, Copy, Debug, PartialEq, Eq)]
pub struct Fault {
    pub why: Refusal,
    pub place: usize,
}

/// What a reading counts over the finished sheet.
#[derive(Clone, Copy, Debug, PartialEq, Eq)]
pub struct Counts {
    pub entries: usize,
    pub steps: u64,
    pub lines: usize,
    pub tops: usize,
}

/// What reading answers of a row that it does not refuse.
#[derive(Clone, Copy, Debug, PartialEq, Eq)]
pub enum Reading {
    Read(Counts),
    Unread(Counts),
}

/// What a grammar and a row length can cost at the most (R6).
#[derive(Clone, Copy, Debug, PartialEq, Eq)]
pub struct Bounds {
    pub rests: u64,
    pub entries: u64,
    pub steps: u64,
    pub lines: u64,
}
