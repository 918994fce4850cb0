// Tables at rest that are not the least: pseudo-random entries, lifted until they are at rest. What is read off them stays true.
use super::played::{self, Place, Play};
use arena::Job;
use automaton::{Automaton, Mode, Refusal};
use compare::{Entries, Random, Shown};
use std::io;
use std::ops::AddAssign;

// How many automata are drawn, and the most sweeps that a table is given to come to rest: more than the raises that it has room for.
const DRAWN: usize = 1000;

const SWEEPS: usize = 2000;

// What was seen of the tables: how many were at rest, how many of them were not the least, how many ones their relations had that
// `second` has not, from how many positions play was followed, and how many of these broke their promise.
#[derive(Clone, Copy, Default)]
struct Seen {
    tables: usize,
    unlike: usize,
    beyond: usize,
    starts: usize,
    broken: usize,
}

impl Seen {
    // Does a table say what is not so?
    fn is_false(self) -> bool {
        self.beyond != 0 || self.broken != 0
    }
}

// No count here comes near the largest number, at which the sum would stay.
impl AddAssign for Seen {
    fn add_assign(&mut self, other: Seen) {
        self.tables = self.tables.saturating_add(other.tables);
        self.unlike = self.unlike.saturating_add(other.unlike);
        self.beyond = self.beyond.saturating_add(other.beyond);
        self.starts = self.starts.saturating_add(other.starts);
        self.broken = self.broken.saturating_add(other.broken);
    }
}

// Lifts the table until it is at rest: whether it came there.
fn come_to_rest(job: &Job, entries: &mut [u32]) -> Result<bool, Refusal> {
    for _ in 0..SWEEPS {
        if table::rest(job, entries)?.is_none() {
            return Ok(true);
        }
        for position in 0..entries.len() {
            table::lift(job, entries, position)?;
        }
    }
    Ok(false)
}

// Is the promise of the entry at a place kept? From Spoiler's position with an entry m below T at most m counting positions come,
// that one counted, before one that ends the count. An idle position promises nothing.
fn promise(play: &Play, number: Option<usize>, place: Place, entries: &[u32], top: usize) -> Seen {
    let Some(entry) = number.and_then(|s| entries.get(s)) else {
        return Seen::default();
    };
    if play.ends(place) || play.accepts(place.blue) || top <= *entry as usize {
        return Seen::default();
    }
    let kept = play.most_counted(place).is_some_and(|most| most <= *entry);
    Seen {
        starts: 1,
        broken: usize::from(!kept),
        ..Seen::default()
    }
}

// The promises of a table at rest, in delayed and in fair mode.
fn promises(job: &Job, entries: &[u32], top: usize) -> Seen {
    let mut seen = Seen::default();
    if matches!(job.mode, Mode::ORDINARY | Mode::DIRECT) {
        return seen;
    }
    let play = Play {
        delayed: job.mode == Mode::DELAYED,
        marks: job.marks,
        moves: job.moves,
        replies: &played::replies(job, entries),
    };
    for index in 0..played::PLACES {
        let place = Place::at(index);
        seen += promise(&play, played::spoiler(job, place), place, entries, top);
    }
    seen
}

// Has a table of pseudo-random entries up to T, most of them 0, come to rest, and looks at what is read off it: against the settled
// table, against `second`, and in play.
fn look(
    job: &Job,
    mut random: Random,
    entries: &mut [u32],
    settled: &mut [u32],
) -> Result<Seen, Refusal> {
    let top = arena::ceiling(job)?;
    let above = top as u64 % 65536 + 1;
    let share = 1 + random.0 / 64 % 8;
    random.scatter(
        share,
        entries,
        |drawn| (drawn / 1048576 % 65536 % above) as u32,
    );
    let at_rest = come_to_rest(job, entries)?;
    table::settle(job, settled)?;
    let a = job.automaton;
    let pairs = compare::pairs_of(a);
    let mut first = [0u8; compare::PAIRS];
    let mut other = [0u8; compare::PAIRS];
    relation::relation(job, entries, &mut first[..pairs])?;
    second::relation(a, job.marks, job.moves, job.mode, &mut other[..pairs])?;
    let mut seen = promises(job, entries, top);
    seen += Seen {
        tables: 1,
        unlike: usize::from(*entries != *settled),
        beyond: first
            .iter()
            .zip(&other)
            .filter(|(one, two)| two < one)
            .count(),
        starts: 0,
        broken: usize::from(!at_rest),
    };
    Ok(seen)
}

// Looks at one table in each mode, up to the first that says what is not so, which is printed with its automaton and mode.
fn look_in_modes<'a>(
    rt: &impl Print,
    automaton: Automaton,
    marks: &'a [u8],
    moves: &'a [u8],
    random: Random,
) -> io::Result<Seen> {
    let mut seen = Seen::default();
    for mode in 0..4 {
        let job = Job {
            automaton,
            marks,
            moves,
            mode,
        };
        let mut entries = [0u32; compare::ENTRIES];
        let mut settled = [0u32; compare::ENTRIES];
        let size = compare::size_of(automaton, mode);
        let entries = &mut entries[..size];
        let refused = Seen {
            tables: 1,
            broken: 1,
            ..Seen::default()
        };
        seen += look(&job, random, entries, &mut settled[..size]).unwrap_or(refused);
        if seen.is_false() {
            print!(rt;
                "a table at rest says what is not so\n{}{}",
                Shown(&job),
                Entries(entries)
            )?;
            return Ok(seen);
        }
    }
    Ok(seen)
}

// Draws an automaton of up to 4 states and 2 letters, and looks at a table in each mode.
fn draw(rt: &impl Print, mut random: Random) -> io::Result<Seen> {
    let seed = random.0;
    let states = 1 + (seed / 65536 % 4) as usize;
    let letters = 1 + (seed / 4096 % 2) as usize;
    let mut present = [0u8; compare::TRIPLES];
    let mut marks = [0u8; 4];
    let mut moves = [0u8; compare::BYTES];
    random.scatter(2 + seed / 1048576 % 8, &mut present, |_| 1);
    random.scatter(7, &mut marks, |_| 1);
    let bytes = compare::moves_of(states, letters, &present, &mut moves);
    let a = Automaton {
        states,
        letters,
        start: 0,
    };
    look_in_modes(rt, a, &marks[..states], &moves[..bytes], random)
}

// Looks at the tables of all automata drawn, up to the first that says what is not so.
fn draw_all(rt: &impl Print) -> io::Result<Seen> {
    let mut random = Random(362436069362436069);
    let mut seen = Seen::default();
    for _ in 0..DRAWN {
        seen += draw(rt, random)?;
        if seen.is_false() {
            return Ok(seen);
        }
        random.step();
        random.step();
    }
    Ok(seen)
}

// Prints what was seen of the tables.
pub fn run(rt: &impl Print) -> io::Result<()> {
    let Seen {
        tables,
        unlike,
        beyond,
        starts,
        broken,
    } = draw_all(rt)?;
    println!(rt; "tables at rest\t{tables}")?;
    println!(rt; "of them not the least\t{unlike}")?;
    println!(rt; "ones that are not won\t{beyond}")?;
    println!(rt; "positions played from\t{starts}")?;
    println!(rt; "promises broken\t{broken}")
}
