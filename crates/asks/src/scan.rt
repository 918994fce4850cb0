// High and Low: the greatest and the least entry one step on. Lift and rest both work them out here.
ghost use Rattle.std.specs.Prelude.{◌≡◌, ◌≤◌, length};
ghost use Rattle.games.specs.Game.{at, highest, lowest};
ghost use Rattle.asks.specs.Steps.{ahead, Leading};

use super::steps::{Steps, spot};
use arena::Game;

// High: the greatest entry one step on, 0 if there is none.
pub fn high(s: Steps, game: &Game, table: &[u32]) -> u32
    requires table_len_bound { length table.now ≤ 139264 }
    requires leading { Leading s game.now.marks.now game.now.moves.now (length table.now) }
    ensures { result ≡ highest (at table.now) (ahead s game.now.marks.now game.now.moves.now) }
{
    let mut greatest = 0;
    for i in s.lo..s.hi {
        let entry = table[spot(s, game, i)];
        if greatest < entry {
            greatest = entry;
        }
    }
    greatest
}

// Low: the least entry one step on, T if there is none.
pub fn low(s: Steps, game: &Game, table: &[u32]) -> u32
    requires table_len_bound { length table.now ≤ 139264 }
    requires leading { Leading s game.now.marks.now game.now.moves.now (length table.now) }
    ensures { result ≡ lowest game.now.arena.top (at table.now) (ahead s game.now.marks.now game.now.moves.now) }
{
    let mut least = game.arena.top;
    for i in s.lo..s.hi {
        let entry = table[spot(s, game, i)];
        if entry < least {
            least = entry;
        }
    }
    least
}
