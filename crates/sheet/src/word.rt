// An entry of the sheet and the word that it is.

ghost use Rattle.std.specs.Prelude.{◌≡◌, ◌+◌, ◌*◌, ◌<◌};

use paper::{Place, RuleNo};

/// An entry of the sheet: a rule, an origin, and a byte with a bit for each member still to be found. A word has eight bits for each of the three.
#[derive(Clone, Copy, Debug, PartialEq, Eq)]
pub struct Entry {
    pub rule: RuleNo,
    pub origin: Place,
    pub rest: u8,
    ghost rule_fits: { rule.0 < 256 },
    ghost origin_fits: { origin.0 < 256 },
}

// No `From`: not every word is an entry's.
impl Entry {
    /// The word of an entry: rule, origin and byte, eight bits each.
    pub fn word(self) -> u32
        ensures { result ≡ self.rule.0 * 65536 + self.origin.0 * 256 + self.rest }
    {
        self.rule.0 as u32 * 65536 + self.origin.0 as u32 * 256 + u32::from(self.rest)
    }

    /// The entry that a word is.
    pub fn of_word(word: u32) -> Entry
        requires { word < 16777216 }
        ensures { word ≡ result.rule.0 * 65536 + result.origin.0 * 256 + result.rest }
    {
        Entry {
            rule: RuleNo((word / 65536) as usize),
            origin: Place((word / 256 % 256) as usize),
            rest: (word % 256) as u8,
        }
    }
}
