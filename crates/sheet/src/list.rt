// One list of the sheet: cells whose keys ascend.

ghost use Rattle.std.specs.Prelude.{◌≤◌, length};
ghost use Rattle.std.proofs.Math.Seq.{slice};
ghost use Rattle.sheet.specs.Cells.{Ascends, Placed};

use paper::Refusal;

/// One more than the greatest word of an entry.
pub const KEYS: u32 = 8_388_608;

/// Puts a cell at its place in the list from `base` to `end`, unless its key stands there already. Answers whether it is new.
pub fn place(words: &mut [u32], base: usize, end: usize, cell: u32) -> Result<bool, Refusal>
    requires list { base ≤ end }
    requires within { end ≤ length words.old }
    requires ascends { Ascends (slice base end words.old) }
    ensures { Placed base end cell words.old words.new result }
{
    let key = cell % KEYS;
    let list = &words[base..end];
    let at = base + list.partition_point(|other| *other % KEYS < key);
    if at < end && words[at] % KEYS == key {
        return Ok(false);
    }
    if words.len() <= end {
        return Err(Refusal::FewWords);
    }
    words.copy_within(at..end, at + 1);
    words[at] = cell;
    Ok(true)
}
