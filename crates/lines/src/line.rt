// The numbers of derivation lines: twelve to a line.

ghost use Rattle.std.specs.Prelude.{◌≡◌, ◌*◌, ◌+◌, ◌<◌, ◌≤◌, length};
ghost use Rattle.paper.specs.Lines.{line_size, line_count, line_rule, line_from, line_to, line_parts, line_slot};

// One name for each number of a line, as the definitions have them; that k is a line of these is a fact of two values, and stands in each contract.

/// How many numbers a line has.
pub const LINE: usize = 12;

/// How many whole lines the numbers hold.
pub fn count(lines: &[u16]) -> usize
    ensures { result ≡ line_count lines.now }
{
    lines.len() / LINE
}

/// The rule of line k.
pub fn rule(lines: &[u16], k: usize) -> usize
    requires { k < line_count lines.now }
    ensures { result ≡ line_rule lines.now k }
{
    usize::from(lines[LINE * k])
}

/// Where line k begins.
pub fn from(lines: &[u16], k: usize) -> usize
    requires { k < line_count lines.now }
    ensures { result ≡ line_from lines.now k }
{
    usize::from(lines[LINE * k + 1])
}

/// Where line k ends.
pub fn to(lines: &[u16], k: usize) -> usize
    requires { k < line_count lines.now }
    ensures { result ≡ line_to lines.now k }
{
    usize::from(lines[LINE * k + 2])
}

/// How many parts line k has.
pub fn parts(lines: &[u16], k: usize) -> usize
    requires { k < line_count lines.now }
    ensures { result ≡ line_parts lines.now k }
{
    usize::from(lines[LINE * k + 3])
}

/// Slot x of line k: 0 for a token, or one more than the number of the part's line.
pub fn slot(lines: &[u16], k: usize, x: usize) -> usize
    requires line { k < line_count lines.now }
    requires slot { x < 8 }
    ensures { result ≡ line_slot lines.now k x }
{
    usize::from(lines[LINE * k + 4 + x])
}
