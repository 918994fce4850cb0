// Texts of right form that are refused. For most numbers the last text has a fault with a later number too.
use super::tried::{try_roomy, try_text};
use std::io;

// Refusals 1, 2 and 21.
fn limits(rt: &impl Print) -> io::Result<()> {
    println!(rt; "1: states")?;
    try_roomy(rt, b"automaton\t0\t1\t0\n")?;
    try_roomy(rt, b"automaton\t65\t1\t0\n")?;
    try_roomy(rt, b"automaton\t0\t0\t0\n")?;
    println!(rt; "2: letters")?;
    try_roomy(rt, b"automaton\t2\t0\t0\n")?;
    try_roomy(rt, b"automaton\t2\t17\t0\n")?;
    try_roomy(rt, b"automaton\t17\t17\t0\n")?;
    try_roomy(rt, b"automaton\t2\t17\t0\naccept\t2\n")?;
    println!(rt; "21: the limits of the programs")?;
    try_roomy(rt, b"automaton\t17\t1\t0\n")?;
    try_roomy(rt, b"automaton\t64\t1\t0\n")?;
    try_roomy(rt, b"automaton\t2\t9\t0\n")?;
    try_roomy(rt, b"automaton\t2\t16\t0\n")?;
    try_roomy(rt, b"automaton\t17\t1\t17\naccept\t17\n")
}

// Refusals 3 and 4.
fn states(rt: &impl Print) -> io::Result<()> {
    println!(rt; "3: accept lines")?;
    try_roomy(rt, b"automaton\t2\t1\t0\naccept\t1\naccept\t0\naccept\t1\n")?; // not ascending
    try_roomy(rt, b"automaton\t2\t1\t0\naccept\t0\naccept\t0\n")?; // twice the same
    try_roomy(rt, b"automaton\t2\t1\t0\naccept\t2\n")?; // not below n
    try_roomy(rt, b"automaton\t2\t1\t0\naccept\t257\n")?; // below n in a byte
    try_roomy(rt, b"automaton\t2\t1\t2\naccept\t0\naccept\t1\naccept\t2\n")?;
    println!(rt; "4: start")?;
    try_roomy(rt, b"automaton\t2\t1\t2\n")?;
    try_roomy(rt, b"automaton\t2\t1\t256\n")?;
    try_roomy(rt, b"automaton\t2\t1\t65535\n")?;
    try_roomy(rt, b"automaton\t2\t1\t2\nmove\t2\t0\t0\n")
}

// Refusals 6 and 7.
fn moves(rt: &impl Print) -> io::Result<()> {
    println!(rt; "6: states and letters of moves")?;
    try_roomy(rt, b"automaton\t2\t1\t0\nmove\t0\t0\t0\nmove\t2\t0\t0\n")?; // from
    try_roomy(rt, b"automaton\t2\t1\t0\nmove\t0\t0\t2\nmove\t1\t0\t0\n")?; // to
    try_roomy(rt, b"automaton\t2\t1\t0\nmove\t0\t1\t0\n")?; // letter
    try_roomy(rt, b"automaton\t2\t1\t0\nmove\t256\t0\t0\n")?;
    try_roomy(rt, b"automaton\t2\t1\t0\nmove\t0\t256\t0\n")?;
    try_roomy(rt, b"automaton\t2\t1\t0\nmove\t0\t0\t256\n")?;
    try_roomy(
        rt,
        b"automaton\t2\t1\t0\nmove\t1\t0\t0\nmove\t0\t0\t0\nmove\t1\t1\t0\n",
    )?;
    println!(rt; "7: order of moves")?;
    try_roomy(
        rt,
        b"automaton\t2\t1\t0\nmove\t0\t0\t1\nmove\t0\t0\t1\nmove\t1\t0\t0\n",
    )?; // equal
    try_roomy(rt, b"automaton\t2\t1\t0\nmove\t0\t0\t1\nmove\t0\t0\t0\n")?; // lower by to
    try_roomy(rt, b"automaton\t2\t2\t0\nmove\t0\t1\t0\nmove\t0\t0\t1\n")?; // by letter
    try_roomy(
        rt,
        b"automaton\t2\t2\t0\nmove\t0\t0\t0\nmove\t1\t0\t0\nmove\t0\t1\t1\n",
    )?; // by from
    try_roomy(
        rt,
        b"automaton\t2\t1\t0\nmode\t4\nmove\t0\t0\t1\nmove\t0\t0\t1\n",
    )
}

// Refusals 8 and 16.
fn mode_and_room(rt: &impl Print) -> io::Result<()> {
    println!(rt; "8: mode")?;
    try_roomy(rt, b"automaton\t2\t1\t0\nmode\t4\n")?;
    try_roomy(rt, b"automaton\t2\t1\t0\nmode\t256\n")?;
    try_text(rt, b"automaton\t2\t1\t0\nmode\t4\n", 1, 0)?;
    println!(rt; "16: buffers")?;
    try_text(
        rt,
        b"automaton\t2\t1\t0\nmove\t0\t0\t1\nmove\t1\t0\t0\n",
        1,
        6,
    )?; // a mark short
    try_text(
        rt,
        b"automaton\t2\t1\t0\nmove\t0\t0\t1\nmove\t1\t0\t0\n",
        2,
        5,
    ) // a byte of a move short
}

pub fn run(rt: &impl Print) -> io::Result<()> {
    limits(rt)?;
    states(rt)?;
    moves(rt)?;
    mode_and_room(rt)
}
