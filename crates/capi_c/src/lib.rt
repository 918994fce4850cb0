// The calls as C and C++ link them: each export is the function of `capi` that bears its name, with its promise.
#![tactic(auto)]

ghost use Rattle.std.specs.Prelude.{◌≡◌};
ghost use Rattle.automaton.specs.Board.{board_of};
ghost use Rattle.automaton.specs.Check.{checked};
ghost use Rattle.arena.specs.Refusals.{sizing, topping};
ghost use Rattle.table.specs.Calls.{clearing, lifting, resting, settling};
ghost use Rattle.relation.specs.Calls.{relating, replying};
ghost use Rattle.quotient.specs.Calls.{buffers, quotienting};
ghost use Rattle.capi.specs.Exported.{automaton_of, given, job_by};

use capi::Answer;

#[unsafe(no_mangle)]
pub extern "C" fn lucorphane_check(
    n: u64,
    k: u64,
    start: u64,
    accept: &[u8],
    moves: &[u8],
) -> Answer
    ensures { given result ≡ checked (board_of (automaton_of n k start) accept.now moves.now) start }
{
    capi::lucorphane_check(n, k, start, accept, moves)
}

#[unsafe(no_mangle)]
pub extern "C" fn lucorphane_positions(n: u64, k: u64, mode: u64) -> Answer
    ensures { given result ≡ sizing (automaton_of n k 0) mode }
{
    capi::lucorphane_positions(n, k, mode)
}

#[unsafe(no_mangle)]
pub extern "C" fn lucorphane_ceiling(
    n: u64,
    k: u64,
    start: u64,
    accept: &[u8],
    moves: &[u8],
    mode: u64,
) -> Answer
    ensures { given result ≡ topping (job_by n k start accept.now moves.now mode) }
{
    capi::lucorphane_ceiling(n, k, start, accept, moves, mode)
}

#[unsafe(no_mangle)]
pub extern "C" fn lucorphane_clear(
    n: u64,
    k: u64,
    start: u64,
    accept: &[u8],
    moves: &[u8],
    mode: u64,
    table: &mut [u32],
) -> Answer
    ensures result_value { given result ≡ (clearing (job_by n k start accept.now moves.now mode) table.old).answer }
    ensures table_after { table.new ≡ (clearing (job_by n k start accept.now moves.now mode) table.old).left }
{
    capi::lucorphane_clear(n, k, start, accept, moves, mode, table)
}

#[unsafe(no_mangle)]
pub extern "C" fn lucorphane_lift(
    n: u64,
    k: u64,
    start: u64,
    accept: &[u8],
    moves: &[u8],
    mode: u64,
    table: &mut [u32],
    position: usize,
) -> Answer
    ensures result_value { given result ≡ (lifting (job_by n k start accept.now moves.now mode) table.old position).answer }
    ensures table_after { table.new ≡ (lifting (job_by n k start accept.now moves.now mode) table.old position).left }
{
    capi::lucorphane_lift(n, k, start, accept, moves, mode, table, position)
}

#[unsafe(no_mangle)]
pub extern "C" fn lucorphane_settle(
    n: u64,
    k: u64,
    start: u64,
    accept: &[u8],
    moves: &[u8],
    mode: u64,
    table: &mut [u32],
) -> Answer
    ensures result_value { given result ≡ (settling (job_by n k start accept.now moves.now mode) table.old).answer }
    ensures table_after { table.new ≡ (settling (job_by n k start accept.now moves.now mode) table.old).left }
{
    capi::lucorphane_settle(n, k, start, accept, moves, mode, table)
}

#[unsafe(no_mangle)]
pub extern "C" fn lucorphane_rest(
    n: u64,
    k: u64,
    start: u64,
    accept: &[u8],
    moves: &[u8],
    mode: u64,
    table: &[u32],
) -> Answer
    ensures { given result ≡ resting (job_by n k start accept.now moves.now mode) table.now }
{
    capi::lucorphane_rest(n, k, start, accept, moves, mode, table)
}

#[unsafe(no_mangle)]
pub extern "C" fn lucorphane_relation(
    n: u64,
    k: u64,
    start: u64,
    accept: &[u8],
    moves: &[u8],
    mode: u64,
    table: &[u32],
    out: &mut [u8],
) -> Answer
    ensures result_value { given result ≡ (relating (job_by n k start accept.now moves.now mode) table.now out.old).answer }
    ensures out_after { out.new ≡ (relating (job_by n k start accept.now moves.now mode) table.now out.old).left }
{
    capi::lucorphane_relation(n, k, start, accept, moves, mode, table, out)
}

#[unsafe(no_mangle)]
pub extern "C" fn lucorphane_reply(
    n: u64,
    k: u64,
    start: u64,
    accept: &[u8],
    moves: &[u8],
    mode: u64,
    table: &[u32],
    position: usize,
) -> Answer
    ensures { given result ≡ replying (job_by n k start accept.now moves.now mode) table.now position }
{
    capi::lucorphane_reply(n, k, start, accept, moves, mode, table, position)
}

#[unsafe(no_mangle)]
pub extern "C" fn lucorphane_quotient(
    n: u64,
    k: u64,
    start: u64,
    accept: &[u8],
    moves: &[u8],
    mode: u64,
    table: &mut [u32],
    classes: &mut [u8],
    classmarks: &mut [u8],
    classmoves: &mut [u8],
) -> Answer
    ensures result_value { given result ≡ (quotienting (job_by n k start accept.now moves.now mode) (buffers table.old classes.old classmarks.old classmoves.old)).answer }
    ensures buffers_after { buffers table.new classes.new classmarks.new classmoves.new ≡ (quotienting (job_by n k start accept.now moves.now mode) (buffers table.old classes.old classmarks.old classmoves.old)).left }
{
    capi::lucorphane_quotient(
        n, k, start, accept, moves, mode, table, classes, classmarks, classmoves,
    )
}
