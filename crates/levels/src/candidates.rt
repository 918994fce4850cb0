// The candidates of a row: for each letter a, the states r with a move by a to a state whose entry has risen.
ghost use Rattle.std.specs.Prelude.{◌*◌, ◌≤◌, ◌<◌, length};
ghost use Rattle.levels.specs.Candidates.{AllIn, AllSpared, Found, Reach, Spared};
ghost use Rattle.levels.specs.Lows.{Within};

// The candidates of one letter.
fn reach(n: usize, k: usize, into: &[u64], fresh: u64, a: usize) -> u64
    requires within { Within fresh n }
    requires numbers_fit { (n ≤ 64) × (k ≤ 16) × (a < k) }
    requires into_whole { n * k ≤ length into.now }
    ensures { Reach into.now k fresh a result }
{
    let mut found = 0u64;
    for x in words::members(fresh) {
        found = words::join(found, into[x * k + a]);
    }
    found
}

// The candidates of every letter: how many there are.
pub fn reach_all(n: usize, k: usize, into: &[u64], fresh: u64, found: &mut [u64]) -> usize
    requires within { Within fresh n }
    requires numbers_fit { (n ≤ 64) × (k ≤ 16) }
    requires into_whole { n * k ≤ length into.now }
    requires found_has_room { k ≤ length found.old }
    ensures few { result ≤ 1024 }
    ensures found { Found into.now k fresh found.new }
{
    let mut count = 0;
    for (a, word) in found[..k].iter_mut().enumerate() {
        *word = reach(n, k, into, fresh, a);
        count += words::size(*word);
    }
    count
}

// The candidates of one letter without those that have a move by it to one of `low`.
fn spare(n: usize, k: usize, into: &[u64], low: u64, a: usize, candidates: u64) -> u64
    requires within { Within low n }
    requires numbers_fit { (n ≤ 64) × (k ≤ 16) × (a < k) }
    requires into_whole { n * k ≤ length into.now }
    ensures { Spared into.now k low a candidates result }
{
    let mut found = candidates;
    for x in words::members(low) {
        if found == 0 {
            break;
        }
        found = words::minus(found, into[x * k + a]);
    }
    found
}

// The same of every letter: all that are left, in one set.
pub fn spare_all(n: usize, k: usize, into: &[u64], low: u64, found: &mut [u64]) -> u64
    requires within { Within low n }
    requires numbers_fit { (n ≤ 64) × (k ≤ 16) }
    requires into_whole { n * k ≤ length into.now }
    requires found_has_room { k ≤ length found.old }
    ensures all_spared { AllSpared into.now k low found.old found.new }
    ensures all_in { AllIn k found.new result }
{
    let mut any = 0u64;
    for (a, word) in found[..k].iter_mut().enumerate() {
        *word = spare(n, k, into, low, a, *word);
        any = words::join(any, *word);
    }
    any
}
