// The lines of the related pairs, with the entry where each begins.
ghost use Rattle.std.specs.Prelude.{◌≡◌, ◌*◌, ◌<◌, ◌/◌, ◌%◌};
ghost use Rattle.fields.specs.Bytes.{laid, stop};
ghost use Rattle.simulation.specs.Answers.{relation};
ghost use Rattle.arena.specs.Seats.{bare};
ghost use Rattle.printer.specs.Printed.{pair_line, pair_lines_from};

use super::row;
use arena::Seating;

// Puts the line of each pair whose byte is 1: the place past them.
pub fn put(seats: &Seating, related: &[u8], out: &mut [u8], at: usize) -> usize
    requires related_value { related.now ≡ relation (bare seats.now.arena seats.now.marks.now) seats.now.arena.mode seats.now.table.now }
    ensures value { result ≡ stop at (pair_lines_from (bare seats.now.arena seats.now.marks.now) seats.now.arena.mode seats.now.table.now 0 (seats.now.arena.states * seats.now.arena.states)) out.old }
    ensures out_after { out.new ≡ laid at (pair_lines_from (bare seats.now.arena seats.now.marks.now) seats.now.arena.mode seats.now.table.now 0 (seats.now.arena.states * seats.now.arena.states)) out.old }
{
    let mut to = at;
    for (i, byte) in related.iter().enumerate() {
        if *byte == 1 {
            to = put_one(seats, i, out, to);
        }
    }
    to
}

// Puts the line of pair i: the place past it.
fn put_one(seats: &Seating, i: usize, out: &mut [u8], at: usize) -> usize
    requires i_bound { i < seats.now.arena.states * seats.now.arena.states }
    ensures value { result ≡ stop at (pair_line (bare seats.now.arena seats.now.marks.now) seats.now.arena.mode seats.now.table.now i) out.old }
    ensures out_after { out.new ≡ laid at (pair_line (bare seats.now.arena seats.now.marks.now) seats.now.arena.mode seats.now.table.now i) out.old }
{
    let states = seats.arena.states;
    let red = i / states;
    let blue = i % states;
    let entry = seats.entry(red, blue);
    row::put(out, at, b"pair", &[red, blue, entry as usize])
}
