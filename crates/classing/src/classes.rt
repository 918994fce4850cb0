// Which states are equal, and the number of each one's class. All of it is read off the table.
ghost use Rattle.std.specs.Prelude.{◌≡◌, ◌<◌, length};
ghost use Rattle.simulation.specs.Quotient.{chief, class_bytes, class_count, equal};
ghost use Rattle.arena.specs.Seats.{bare};

use arena::Seating;
use automaton::Automaton;

// Is each of the two states related to the other?
fn are_equal(seats: &Seating, q: usize, r: usize) -> bool
    requires { (q < seats.now.arena.states) × (r < seats.now.arena.states) }
    ensures { result ≡ equal (bare seats.now.arena seats.now.marks.now) seats.now.arena.mode seats.now.table.now q r }
{
    seats.below(q, r) && seats.below(r, q)
}

// The least state that equals q, which is q itself if none below it does.
fn chief(seats: &Seating, q: usize) -> usize
    requires { q < seats.now.arena.states }
    ensures { result ≡ chief (bare seats.now.arena seats.now.marks.now) seats.now.arena.mode seats.now.table.now q }
{
    for r in 0..q {
        if are_equal(seats, q, r) {
            return r;
        }
    }
    q
}

// Writes the class of each state: how many classes there are.
pub fn number(seats: &Seating, classes: &mut [u8]) -> usize
    requires { length classes.old ≡ seats.now.arena.states }
    ensures value { result ≡ class_count (bare seats.now.arena seats.now.marks.now) seats.now.arena.mode seats.now.table.now }
    ensures classes_after { classes.new ≡ class_bytes (bare seats.now.arena seats.now.marks.now) seats.now.arena.mode seats.now.table.now }
{
    // how many classes have a least member below each state
    let mut earlier = [0u8; Automaton::STATES];
    let mut count = 0u8;
    for (q, class) in classes.iter_mut().enumerate() {
        earlier[q] = count;
        let least = chief(seats, q);
        *class = earlier[least];
        if least == q {
            count += 1;
        }
    }
    usize::from(count)
}
