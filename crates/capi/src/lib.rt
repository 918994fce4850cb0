// The calls for C and C++, as include/lucorphane.h declares them. Each function makes one call and gives its answer in
// numbers; nothing is decided here. `capi_c` exports them.
#![tactic(auto)]

mod answers; // answers.rt: the answers of the calls in numbers

ghost use Rattle.std.specs.Prelude.{◌≡◌};
ghost use Rattle.automaton.specs.Board.{board_of};
ghost use Rattle.automaton.specs.Check.{checked};
ghost use Rattle.arena.specs.Refusals.{sizing, topping};
ghost use Rattle.table.specs.Calls.{clearing, lifting, resting, settling};
ghost use Rattle.relation.specs.Calls.{relating, replying};
ghost use Rattle.quotient.specs.Calls.{buffers, quotienting};
ghost use Rattle.capi.specs.Exported.{automaton_of, given, job_by, told};

use arena::Job;
use automaton::Automaton;

// What every exported function returns, `lucorphane_answer` in the header. Number 0: accepted.
#[repr(C)]
#[derive(Clone, Copy)]
pub struct Answer {
    pub number: u64,
    pub place: u64,
    pub value: [u64; 3],
}

impl Answer {
    fn new(number: usize, place: usize, x: usize, y: usize, z: usize) -> Answer
        ensures { given result ≡ told number place x y z }
    {
        Answer {
            number: number as u64,
            place: place as u64,
            value: [x as u64, y as u64, z as u64],
        }
    }
}

// The automaton's record.
fn automaton(n: u64, k: u64, start: u64) -> Automaton
    ensures { result ≡ automaton_of n k start }
{
    Automaton {
        states: n as usize,
        letters: k as usize,
        start: start as usize,
    }
}

// What a call on a table is about.
fn job<'a>(n: u64, k: u64, start: u64, accept: &'a [u8], moves: &'a [u8], mode: u64) -> Job<'a>
    ensures { result ≡ job_by n k start accept.now moves.now mode }
{
    Job {
        automaton: automaton(n, k, start),
        marks: accept,
        moves,
        mode: mode as usize,
    }
}

// `automaton::check`
pub fn lucorphane_check(n: u64, k: u64, start: u64, accept: &[u8], moves: &[u8]) -> Answer
    ensures { given result ≡ checked (board_of (automaton_of n k start) accept.now moves.now) start }
{
    automaton::check(automaton(n, k, start), accept, moves).into()
}

// `arena::positions`, which asks for no start
pub fn lucorphane_positions(n: u64, k: u64, mode: u64) -> Answer
    ensures { given result ≡ sizing (automaton_of n k 0) mode }
{
    arena::positions(automaton(n, k, 0), mode as usize).into()
}

// `arena::ceiling`
pub fn lucorphane_ceiling(
    n: u64,
    k: u64,
    start: u64,
    accept: &[u8],
    moves: &[u8],
    mode: u64,
) -> Answer
    ensures { given result ≡ topping (job_by n k start accept.now moves.now mode) }
{
    arena::ceiling(&job(n, k, start, accept, moves, mode)).into()
}

// `table::clear`
pub fn lucorphane_clear(
    n: u64,
    k: u64,
    start: u64,
    accept: &[u8],
    moves: &[u8],
    mode: u64,
    table: &mut [u32],
) -> Answer
    ensures result_value { given result ≡ (clearing (job_by n k start accept.now moves.now mode) table.old).answer }
    ensures table_after { table.new ≡ (clearing (job_by n k start accept.now moves.now mode) table.old).left }
{
    table::clear(&job(n, k, start, accept, moves, mode), table).into()
}

// `table::lift`
pub fn lucorphane_lift(
    n: u64,
    k: u64,
    start: u64,
    accept: &[u8],
    moves: &[u8],
    mode: u64,
    table: &mut [u32],
    position: usize,
) -> Answer
    ensures result_value { given result ≡ (lifting (job_by n k start accept.now moves.now mode) table.old position).answer }
    ensures table_after { table.new ≡ (lifting (job_by n k start accept.now moves.now mode) table.old position).left }
{
    table::lift(&job(n, k, start, accept, moves, mode), table, position).into()
}

// `table::settle`
pub fn lucorphane_settle(
    n: u64,
    k: u64,
    start: u64,
    accept: &[u8],
    moves: &[u8],
    mode: u64,
    table: &mut [u32],
) -> Answer
    ensures result_value { given result ≡ (settling (job_by n k start accept.now moves.now mode) table.old).answer }
    ensures table_after { table.new ≡ (settling (job_by n k start accept.now moves.now mode) table.old).left }
{
    table::settle(&job(n, k, start, accept, moves, mode), table).into()
}

// `table::rest`
pub fn lucorphane_rest(
    n: u64,
    k: u64,
    start: u64,
    accept: &[u8],
    moves: &[u8],
    mode: u64,
    table: &[u32],
) -> Answer
    ensures { given result ≡ resting (job_by n k start accept.now moves.now mode) table.now }
{
    table::rest(&job(n, k, start, accept, moves, mode), table).into()
}

// `relation::relation`
pub fn lucorphane_relation(
    n: u64,
    k: u64,
    start: u64,
    accept: &[u8],
    moves: &[u8],
    mode: u64,
    table: &[u32],
    out: &mut [u8],
) -> Answer
    ensures result_value { given result ≡ (relating (job_by n k start accept.now moves.now mode) table.now out.old).answer }
    ensures out_after { out.new ≡ (relating (job_by n k start accept.now moves.now mode) table.now out.old).left }
{
    relation::relation(&job(n, k, start, accept, moves, mode), table, out).into()
}

// `relation::reply`
pub fn lucorphane_reply(
    n: u64,
    k: u64,
    start: u64,
    accept: &[u8],
    moves: &[u8],
    mode: u64,
    table: &[u32],
    position: usize,
) -> Answer
    ensures { given result ≡ replying (job_by n k start accept.now moves.now mode) table.now position }
{
    relation::reply(&job(n, k, start, accept, moves, mode), table, position).into()
}

// `quotient::quotient`
pub fn lucorphane_quotient(
    n: u64,
    k: u64,
    start: u64,
    accept: &[u8],
    moves: &[u8],
    mode: u64,
    table: &mut [u32],
    classes: &mut [u8],
    classmarks: &mut [u8],
    classmoves: &mut [u8],
) -> Answer
    ensures result_value { given result ≡ (quotienting (job_by n k start accept.now moves.now mode) (buffers table.old classes.old classmarks.old classmoves.old)).answer }
    ensures buffers_after { buffers table.new classes.new classmarks.new classmoves.new ≡ (quotienting (job_by n k start accept.now moves.now mode) (buffers table.old classes.old classmarks.old classmoves.old)).left }
{
    let job = job(n, k, start, accept, moves, mode);
    quotient::quotient(&job, table, classes, classmarks, classmoves).into()
}
