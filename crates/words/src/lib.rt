// Sets of numbers below 64, each in one word: digit x of the word is 1 where x is a member.
#![tactic(auto)]

ghost use Rattle.std.specs.Prelude.{◌≡◌, ◌≢◌, ◌≤◌, ◌<◌, eqb};
ghost use Rattle.std.specs.Int.Count.{count_trailing_zeros};
ghost use Rattle.words.specs.Sum.{sum};
ghost use Rattle.std.specs.Iterator.{at_most};
ghost use Rattle.words.specs.Word.{dig, Pop, Minus, With, Below, Joined, Met, Visits};

// The lowest member of a set that is not empty.
pub fn lowest(m: u64) -> usize
    requires { m ≢ 0 }
    ensures { result ≡ count_trailing_zeros 64 m }
{
    m.trailing_zeros() as usize
}

// The set without its lowest member.
pub fn rest(m: u64) -> u64
    requires { m ≢ 0 }
    ensures { Pop m (count_trailing_zeros 64 m) result }
{
    m & (m - 1)
}

// The members of a that are not in b.
pub fn minus(a: u64, b: u64) -> u64
    ensures { Minus a b result }
{
    a & !b
}

// The set with x.
pub fn with(m: u64, x: usize) -> u64
    requires { x < 64 }
    ensures { With m x result }
{
    m | (1u64 << x)
}

// Is x a member?
pub fn has(m: u64, x: usize) -> bool
    requires { x < 64 }
    ensures { result ≡ eqb (dig m x) 1 }
{
    (m >> x) & 1 == 1
}

// The numbers below n.
pub fn below(n: usize) -> u64
    requires { n ≤ 64 }
    ensures { Below n result }
{
    if n == 64 {
        return u64::MAX;
    }
    (1u64 << n) - 1
}

// The members of a, of b or of both.
pub fn join(a: u64, b: u64) -> u64
    ensures { Joined a b result }
{
    a | b
}

// The members of both.
pub fn meet(a: u64, b: u64) -> u64
    ensures { Met a b result }
{
    a & b
}

// How many members.
pub fn size(m: u64) -> usize
    ensures { result ≡ sum (dig m) 64 }
{
    m.count_ones() as usize
}

// The members of a set that are still to come, the lowest first.
#[derive(Drop)]
pub struct Iter {
    pub left: u64,
}

// The members of a set, one by one.
#[inline(always)]
pub fn members(m: u64) -> Iter
    ensures { result.left ≡ m }
{
    Iter { left: m }
}

impl Iterator for Iter {
    type Item = usize;

    ghost next_gives = { λ s x t. Visits s.left x t.left };

    ghost remaining = { λ s. at_most s.left };

    #[inline(always)]
    fn next(&mut self) -> Option<usize> {
        if self.left == 0 {
            return None;
        }
        let x = lowest(self.left);
        self.left = rest(self.left);
        Some(x)
    }
}
