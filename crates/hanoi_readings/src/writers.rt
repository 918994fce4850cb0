// Files that are read, in the style of the tools that write them.
use super::listed::try_list;
use super::tried::{PROGRAM, try_program};
use std::io;

// As Spot's ltl2tgba -B writes them.
pub const SPOT: &[u8] = b"HOA: v1
name: \"G(!request | Fgrant)\"
States: 2
Start: 0
AP: 2 \"request\" \"grant\"
acc-name: Buchi
Acceptance: 1 Inf(0)
properties: trans-labels explicit-labels state-acc complete
properties: deterministic stutter-invariant
--BODY--
State: 0 {0}
[!0 | 1] 0
[0&!1] 1
State: 1
[1] 0
[!1] 1
--END--";

// By hand: comments, headers in odd order, state 0 not listed, an edge that repeats moves and one without any.
pub const HAND: &[u8] = b"/* An automaton
   /* by hand */ */
HOA: v1 Acceptance: 1 Inf ( 0 )
AP: 3 \"a \\\" b\" \"/* no comment\" \"\\\\\" /* , then */ Start:1
x-y_z: t \"--END--\" States 65535 f tool:
States:3--BODY--
State:2{}[0|1&!2]0[(0|1)&2]0/* again */[2&(1|0)]0
State:1\"{0}\" { 0 }
[!!!(0&!(1&2))]2[f]0[t&t]1--END--";

// Brackets as deep as they may be, closed and opened again.
pub const DEEP: &[u8] = b"HOA: v1 States: 1 Start: 0 AP: 2 \"a\" \"b\" Acceptance: 1 Inf(0) --BODY--
State: 0 [((((((((((((((((0&1))))))))))))))))|!(!(!(!(!(!(!(!(!(!(!(!(!(!(!(!(0|1))))))))))))))))] 0 --END--";

// As LTL3BA writes them.
const LTL3BA: &[u8] = b"HOA: v1
tool: \"LTL3BA\" \"1.1.3\"
name: \"BA for <>[]a\"
States: 2
Start: 0
acc-name: Buchi
Acceptance: 1 Inf(0)
AP: 1 \"a\"
properties: trans-labels explicit-labels state-acc no-univ-branch
--BODY--
State: 0 \"T0_init\"
  [t] 0
  [(0)] 1
State: 1 \"accept_S1\" {0}
  [(0)] 1
--END--
";

// As Owl writes them: the start first, states in the order in which they were found.
const OWL: &[u8] = b"HOA: v1
tool: \"owl\" \"21.0\"
name: \"Automaton for GF(a & Xb)\"
owlArgs: \"ltl2nba\" \"--state-acceptance\" \"-f\" \"G F (a & X b)\"
Start: 2
States: 3
acc-name: Buchi
Acceptance: 1 Inf(0)
properties: trans-labels explicit-labels state-acc
AP: 2 \"a\" \"b\"
--BODY--
State: 2 \"{GF(a & Xb)}\"
[(!0)] 2
[(0)] 2
[(0)] 1
State: 0 \"{true}\" {0}
[t] 2
[0 & (!1 | 1)] 1
State: 1 \"{b}\"
[(1)] 0
--END--
";

// A state for each way to bind: or, and, not, brackets; one with edges that repeat moves, and one without a move.
const BINDINGS: &[u8] =
    b"HOA: v1 States: 11 Start: 0 AP: 3 \"a\" \"b\" \"c\" Acceptance: 1 Inf(0) --BODY--
State: 0 [0 | 1 & 2] 0
State: 1 [0 & 1 | 2] 0
State: 2 [(0 | 1) & 2] 0
State: 3 [0 & (1 | 2)] 0
State: 4 [!0 & 1] 0
State: 5 [!(0 & 1)] 0
State: 6 [!!!0 | !!1 & !2] 0
State: 7 [!0 | 0 & !t] 0
State: 8 [0 | 1 | 2 & 0 & 1] 0
State: 9 [0 & !1 & !2] 9 [1 & !0 & !2] 3 [0 & !1 & !2] 2 [!2 & 0] 3
State: 10 [f | !t] 1
--END--";

// Small files, on one line each.
const SMALL: &str =
    "no propositions\tHOA: v1 States: 2 Start: 1 Acceptance: 1 Inf(0) --BODY-- State: 1 {0} [t] 1 [t|f] 0 [f] 1 --END--
no states listed\tHOA: v1 States: 2 Start: 1 AP: 0 Acceptance: 1 Inf(0) --BODY-- --END--
nothing where nothing need be\tHOA:v1/**/Start:0 States:1 AP:1\"\"Acceptance:1Inf(0)--BODY--State:0\"\"{0}[0]0[!0]0--END--/* */
carriage returns\tHOA:\rv1\r\rStates:\r1\rStart:\r0\rAcceptance:\r1\rInf(0)\r--BODY--\rState:\r0\r[t]\r0\r--END--\r
";

pub fn run(rt: &impl Print) -> io::Result<()> {
    print!(rt; "files\nSpot\t")?;
    try_program(rt, SPOT)?;
    print!(rt; "LTL3BA\t")?;
    try_program(rt, LTL3BA)?;
    print!(rt; "Owl\t")?;
    try_program(rt, OWL)?;
    print!(rt; "by hand\t")?;
    try_program(rt, HAND)?;
    print!(rt; "16 deep\t")?;
    try_program(rt, DEEP)?;
    print!(rt; "binding\t")?;
    try_program(rt, BINDINGS)?;
    try_list(rt, SMALL, "", PROGRAM)
}
