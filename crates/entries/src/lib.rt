// The entries of a lent table whose arena is known: filled, searched and lifted.
// They stand by themselves: the calls of `table` decide what to refuse, and then come here.
#![tactic(auto)]

ghost use Rattle.std.specs.Prelude.{◌≡◌, ◌≤◌, ◌<◌, length, replicate};
ghost use Rattle.automaton.specs.First.{first_below};
ghost use Rattle.games.specs.Lift.{lift, rise};
ghost use Rattle.arena.specs.Game.{Playable, played};
ghost use Rattle.entries.specs.Found.{above, raised, restless};

use asks::asked::asked;
use asks::index::Index;

// Clears a table: Spoiler's entries, which are the first `pairs`, and by itself the stretch that begins where they end.
pub fn clear(table: &mut [u32], pairs: usize)
    requires { pairs ≤ length table.old }
    ensures { table.new ≡ replicate (length table.old) 0 }
{
    table[..pairs].fill(0);
    table[pairs..].fill(0);
}

// The first entry above top, if there is one.
pub fn first_above(table: &[u32], top: u32) -> Option<usize>
    ensures { result ≡ first_below (above top table.now) (length table.now) }
{
    table.iter().position(|entry| top < *entry)
}

// The lowest position not at rest, if there is one.
pub fn first_restless(index: &Index, table: &[u32]) -> Option<usize>
    requires { Playable index.now.game table.now }
    ensures { result ≡ first_below (restless (played index.now.game) table.now) (length table.now) }
{
    (0..table.len()).find(|v| table[*v] < asked(index, table, *v))
}

// Lifts position v: whether its entry rose.
pub fn lift(index: &Index, table: &mut [u32], v: usize) -> bool
    requires ready { Playable index.now.game table.old }
    requires v_in_bounds { v < length table.old }
    ensures value { raised result ≡ rise (played index.now.game) table.old v }
    ensures table_after { table.new ≡ lift (played index.now.game) table.old v }
{
    let value = asked(index, &table[..], v);
    if table[v] < value {
        table[v] = value;
        return true;
    }
    false
}
