// Marks and moves by number, each bit saying whether one is there, and by a row of pseudo-random numbers.
ghost use Rattle.std.specs.Prelude.{◌≤◌, length};

use automaton::Move;

// The largest automata drawn: 8 states, 4 letters, and all their triples (from, letter, to).
pub const STATES: usize = 8;

pub const LETTERS: usize = 4;

pub const TRIPLES: usize = STATES * LETTERS * STATES;

pub const BYTES: usize = 3 * TRIPLES;

// A number of states that the drawn marks are enough for.
pub fn most_states(states: usize) -> usize
    ensures { result ≤ 8 }
{
    states.min(STATES)
}

// Writes the lowest bits of a number, one to a byte.
pub fn spread(number: u64, out: &mut [u8]) {
    let mut rest = number;
    for byte in out.iter_mut() {
        *byte = (rest % 2) as u8;
        rest /= 2;
    }
}

// A row of pseudo-random numbers, at one of them, which is not 0.
#[derive(Clone, Copy)]
pub struct Random(pub u64);

impl Random {
    // Goes on to the next number: shifts and exclusive ors, which cannot wrap.
    pub fn step(&mut self) -> u64 {
        let mut number = self.0;
        number ^= number << 13;
        number ^= number >> 7;
        number ^= number << 17;
        self.0 = number;
        number
    }

    // Writes drawn values, by the number drawn, in `share` of 16 places, and zeros in the others.
    pub fn scatter<T: Copy + Default, F: Fn(u64) -> T>(
        &mut self,
        share: u64,
        out: &mut [T],
        value: F,
    )
        requires { F.IsAlwaysCallable value }
    {
        for place in out.iter_mut() {
            let drawn = self.step();
            *place = if drawn / 65536 % 16 < share {
                value(drawn)
            } else {
                T::default()
            };
        }
    }
}

// The move that is the triple with a number, in ascending order.
fn triple(number: usize, states: usize, letters: usize) -> Move {
    let states = states.max(1);
    let letters = letters.max(1);
    Move {
        from: number / states / letters,
        letter: number / states % letters,
        to: number % states,
    }
}

// Writes the moves whose triples are marked 1, in ascending order and as far as there is room: how many bytes they take.
pub fn moves_of(states: usize, letters: usize, present: &[u8; TRIPLES], moves: &mut [u8]) -> usize
    ensures { result ≤ length moves.old }
{
    let mut bytes = 0;
    for (number, mark) in present.iter().enumerate() {
        if *mark != 1 || moves.len() - bytes < 3 {
            continue;
        }
        let t = triple(number, states, letters);
        if t.from < states {
            moves[bytes] = (t.from % 256) as u8;
            moves[bytes + 1] = (t.letter % 256) as u8;
            moves[bytes + 2] = (t.to % 256) as u8;
            bytes += 3;
        }
    }
    bytes
}
