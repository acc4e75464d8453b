// A set of bytes.

ghost use Rattle.std.specs.Prelude.{◌≡◌, ◌↔◌, ◌⊎◌, ℕ, MatchOption};
ghost use Rattle.sheet.specs.Bytes.{HasByte, IsGreatestTaken};

/// A set of bytes, a bit for each.
#[derive(Drop)]
pub struct ByteSet {
    pub words: [u64; 4],
}

impl ByteSet {
    /// The set of one byte.
    pub fn of(byte: u8) -> Self
        ensures { (b : ℕ) → HasByte result.words b ↔ (b ≡ byte) }
    {
        let mut bytes = ByteSet { words: [0; 4] };
        bytes.add(byte);
        bytes
    }

    /// Puts a byte into the set.
    pub fn add(&mut self, byte: u8)
        ensures { (b : ℕ) → HasByte self.new.words b ↔ (HasByte self.old.words b ⊎ (b ≡ byte)) }
    {
        self.words[usize::from(byte / 64)] |= 1 << (byte % 64);
    }

    /// Takes the greatest byte out of the set.
    pub fn take_greatest(&mut self) -> Option<u8>
        ensures taken { MatchOption result ((b : ℕ) → ¬ HasByte self.old.words b) (λ byte. IsGreatestTaken self.old.words byte self.new.words) }
    {
        for left in (0..4).rev() {
            let word = self.words[left];
            if word != 0 {
                let bit = 63 - word.leading_zeros();
                self.words[left] = word - (1 << bit);
                return Some((64 * left as u32 + bit) as u8);
            }
        }
        None
    }
}
