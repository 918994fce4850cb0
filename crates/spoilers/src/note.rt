// What is noted of an entry that rises: itself in its row, the row, and the least old entry of the row.
ghost use Rattle.std.specs.Prelude.{◌<◌, length};
ghost use Rattle.spoilers.specs.Note.{Noting};

use halves::insert;

// Notes that Spoiler's (b, q, r), in row i, rises from e: whether it had not risen before.
pub fn note(
    risen: &mut [u64],
    rows: &mut [u64],
    olds: &mut [u32],
    i: usize,
    b: usize,
    q: usize,
    r: usize,
    e: u32,
) -> bool
    requires { (i < length risen.old) × (i < length olds.old) × (b < length rows.old) × (q < 64) × (r < 64) }
    ensures { Noting risen.old rows.old olds.old risen.new rows.new olds.new i b q r e result }
{
    if words::has(risen[i], r) {
        return false;
    }
    insert(risen, i, r);
    insert(rows, b, q);
    olds[i] = olds[i].min(e);
    true
}
