// Files of right form that are refused, with the order of their numbers, and files at the limits.
use super::listed::try_list;
use super::tried::{LIBRARY, PROGRAM, try_file, try_program};
use super::writers::SPOT;
use std::io;

// Behind `HOA: v1`, for the programs.
const PROGRAM_FILES: &str = "1: none\tStates: 0 Start: 0 Acceptance: 1 Inf(0) --BODY-- --END--
1: 65535\tStates: 65535 Start: 65535 Acceptance: 1 Inf(0) --BODY-- --END--
1: listed states above 64\tStates: 65535 Start: 0 AP: 4 \"a\" \"b\" \"c\" \"d\" Acceptance: 1 Inf(0) --BODY-- State: 65534 [3] 65534 State: 64 {0} --END--
23 before 1: a state twice\tStates: 65 Start: 0 Acceptance: 1 Inf(0) --BODY-- State: 64 State: 63 State: 64 --END--
23 before 1: a target too large\tStates: 65535 Start: 0 Acceptance: 1 Inf(0) --BODY-- State: 64 State: 63 [t] 65535 --END--
23 before 1: a state of none\tStates: 0 Start: 0 Acceptance: 1 Inf(0) --BODY-- State: 0 --END--
21: 17 states\tStates: 17 Start: 0 Acceptance: 1 Inf(0) --BODY-- --END--
21: 64 states\tStates: 64 Start: 0 Acceptance: 1 Inf(0) --BODY-- --END--
21: 16 letters\tStates: 1 Start: 0 AP: 4 \"a\" \"b\" \"c\" \"d\" Acceptance: 1 Inf(0) --BODY-- --END--
21 before 4\tStates: 17 Start: 17 AP: 4 \"a\" \"b\" \"c\" \"d\" Acceptance: 1 Inf(0) --BODY-- --END--
4: the number of states\tStates: 2 Start: 2 Acceptance: 1 Inf(0) --BODY-- --END--
4: 65535\tStates: 1 Start: 65535 Acceptance: 1 Inf(0) --BODY-- --END--
at the limits\tStates: 16 Start: 15 AP: 3 \"a\" \"b\" \"c\" Acceptance: 1 Inf(0) --BODY-- State: 15 {0} [0&1&2] 15 State: 0 [!(0|1|2)] 0 --END--
";

// The same for the library.
const LIBRARY_FILES: &str = "1: 65 states\tStates: 65 Start: 0 Acceptance: 1 Inf(0) --BODY-- --END--
1 before 4\tStates: 65 Start: 65 Acceptance: 1 Inf(0) --BODY-- --END--
17 states\tStates: 17 Start: 16 Acceptance: 1 Inf(0) --BODY-- --END--
16 letters\tStates: 1 Start: 0 AP: 4 \"a\" \"b\" \"c\" \"d\" Acceptance: 1 Inf(0) --BODY-- State: 0 {0} [3 & !0] 0 --END--
4 for 17 states\tStates: 17 Start: 17 Acceptance: 1 Inf(0) --BODY-- --END--
";

// Refused with 4, before any buffer is looked at.
const LATE: &[u8] = b"HOA: v1 States: 2 Start: 2 Acceptance: 1 Inf(0) --BODY-- --END--";

// A file with white space behind it, as long as a file may be; a byte longer; and as long and of wrong form.
fn lengths(rt: &impl Print) -> io::Result<()> {
    let mut text = [b' '; text::BYTES + 1];
    fields::put_bytes(&mut text, 0, SPOT);
    try_program(rt, &text[0..text::BYTES])?;
    try_program(rt, &text[..])?;
    try_program(rt, &text[1..])
}

// A mark short, a byte of a move short, just enough; and 4 before 16.
fn room(rt: &impl Print) -> io::Result<()> {
    try_file(rt, SPOT, PROGRAM, 1, 24)?;
    try_file(rt, SPOT, PROGRAM, 2, 23)?;
    try_file(rt, SPOT, PROGRAM, 2, 24)?;
    try_file(rt, LATE, PROGRAM, 0, 0)
}

pub fn run(rt: &impl Print) -> io::Result<()> {
    println!(rt; "limits")?;
    try_list(rt, PROGRAM_FILES, "HOA: v1 ", PROGRAM)?;
    try_list(rt, LIBRARY_FILES, "HOA: v1 ", LIBRARY)?;
    println!(rt; "lengths")?;
    lengths(rt)?;
    println!(rt; "buffers")?;
    room(rt)
}
