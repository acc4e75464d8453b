// The symbols body: how many terminals and nonterminals there are, and the start symbol.

ghost use Rattle.std.specs.Prelude.{◌≡◌};
ghost use Rattle.paper.specs.Image.{symbols_right};

/// Whether the symbols body is right.
#[tactic(auto, using(std::proofs::lemmas::Bool::Decides::nat_tests), unfolding(paper::specs::Image::symbols_right))]
pub fn are_symbols_right(symbols: &[u8]) -> bool
    ensures { result ≡ symbols_right symbols.now }
{
    if let [terminals, nonterminals, start] = symbols {
        // The sum of two bytes is wider than a byte.
        let all = u16::from(*terminals) + u16::from(*nonterminals);
        1 <= *terminals
            && 1 <= *nonterminals
            && all <= 64
            && *terminals <= *start
            && u16::from(*start) < all
    } else {
        false
    }
}
