// Bodies that are refused with 23 or 24, at the place of the first token that cannot stand.
use super::listed::try_list;
use super::tried::PROGRAM;
use std::io;

// Two states and two propositions.
const HEADER: &str = "HOA: v1 States: 2 Start: 0 AP: 2 \"a\" \"b\" Acceptance: 1 Inf(0) --BODY-- ";

// States, edges and the end.
const STATES: &str = "an edge before a state\t[0] 0 --END--
a label on a state\tState: [0] 0 1 --END--
a state too large\tState: 2 --END--
a state listed twice\tState: 1 State: 0 State: 1 --END--
a mark but 0\tState: 0 {1} --END--
two marks\tState: 0 {0 0} --END--
a name behind the mark\tState: 0 {0} \"a\" --END--
two names\tState: 0 \"a\" \"b\" --END--
no colon\tState 0 --END--
a header\tStart: 0 State: 0 --END--
a mark on an edge\tState: 0 [0] 1 {0} --END--
no mark on an edge\tState: 0 [0] 1 {} --END--
labels left out\tState: 0 1 0 1 0 --END--
a set of targets\tState: 0 [0] 0&1 --END--
a target too large\tState: 0 [0] 2 --END--
no target\tState: 0 [0] --END--
a name of an edge\tState: 0 [0] 1 \"a\" --END--
no end\tState: 0 [0] 1
given up\tState: 0 --ABORT--
a second automaton\t--END-- HOA: v1
a byte behind the end\t--END--.
an unclosed comment behind the end\t--END-- /*
half an end\tState: 0 --END
";

// Labels.
const LABELS: &str = "a proposition too large\tState: 0 [2] 0 --END--
an alias\tState: 0 [@a] 0 --END--
an empty label\tState: 0 [] 0 --END--
two propositions\tState: 0 [0 1] 0 --END--
nothing behind and\tState: 0 [0 &] 0 --END--
nothing before or\tState: 0 [| 0] 0 --END--
not between two\tState: 0 [0 ! 1] 0 --END--
a bracket not closed\tState: 0 [(0] 0 --END--
a bracket not opened\tState: 0 [0)] 0 --END--
an empty bracket\tState: 0 [()] 0 --END--
another word\tState: 0 [tt] 0 --END--
t behind a proposition\tState: 0 [0t] 0 --END--
the name of a proposition\tState: 0 [\"a\"] 0 --END--
17 deep\tState: 0 [(((((((((((((((((0)))))))))))))))))] 0 --END--
17 deep behind or\tState: 0 [0 | !(!(!(!(!(!(!(!(!(!(!(!(!(!(!(!(!(1)))))))))))))))))] 0 --END--
the end of the input 17 deep\tState: 0 [(((((((((((((((((
a bracket closed 16 deep\tState: 0 [(((((((((((((((()
23 before 24\tState: 0 [2 | (((((((((((((((((0)))))))))))))))))] 0 --END--
23 in place of 24\tState: 0 [((((((((((((((((0 ((
23 behind 24\tState: 0 [(((((((((((((((((2)))))))))))))))))] 2 --ABORT--
";

pub fn run(rt: &impl Print) -> io::Result<()> {
    println!(rt; "bodies")?;
    try_list(rt, STATES, HEADER, PROGRAM)?;
    try_list(rt, LABELS, HEADER, PROGRAM)
}
