// A pair's positions by their parts.
ghost use Rattle.std.specs.Prelude.{◌≡◌, ◌<◌};
ghost use Rattle.asks.specs.Pair.{numbered};

// The bit b, Red's state and Blue's.
#[derive(Clone, Copy)]
pub struct Pair {
    pub bit: usize,
    pub red: usize,
    pub blue: usize,
}

impl Pair {
    // The pair of Spoiler's position with this number.
    pub fn numbered(states: usize, number: usize) -> Pair
        requires { 0 < states }
        ensures { result ≡ numbered states number }
    {
        let row = number / states;
        Pair {
            bit: row / states,
            red: row % states,
            blue: number % states,
        }
    }
}
