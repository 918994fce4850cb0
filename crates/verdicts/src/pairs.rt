// The bytes of the relation, read off the table.
ghost use Rattle.std.specs.Prelude.{◌≡◌, ◌*◌, ◌/◌, ◌%◌, ◌<◌, length};
ghost use Rattle.simulation.specs.Answers.{below, related, relation};
ghost use Rattle.arena.specs.Seats.{bare};

use arena::Seating;

// Is the beginning of pair i below T?
fn is_below(seats: &Seating, i: usize) -> bool
    requires { i < seats.now.arena.states * seats.now.arena.states }
    ensures { result ≡ below (bare seats.now.arena seats.now.marks.now) seats.now.arena.mode seats.now.table.now (i / seats.now.arena.states) (i % seats.now.arena.states) }
{
    let states = seats.arena.states;
    seats.entry(i / states, i % states) < seats.arena.top
}

// Writes the byte of each pair, 1 if its beginning is below T: how many are 1.
pub fn fill(seats: &Seating, out: &mut [u8]) -> usize
    requires { length out.old ≡ seats.now.arena.states * seats.now.arena.states }
    ensures value { result ≡ related (bare seats.now.arena seats.now.marks.now) seats.now.arena.mode seats.now.table.now }
    ensures out_after { out.new ≡ relation (bare seats.now.arena seats.now.marks.now) seats.now.arena.mode seats.now.table.now }
{
    let mut ones = 0;
    for (i, byte) in out.iter_mut().enumerate() {
        let related = is_below(seats, i);
        *byte = u8::from(related);
        ones += usize::from(related);
    }
    ones
}
