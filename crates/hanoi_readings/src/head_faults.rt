// Headers that are refused with 23, at the place of the first token that cannot stand.
use super::listed::try_list;
use super::tried::PROGRAM;
use std::io;

// What comes first.
const FIRST: &str = "nothing\t
white space\t /* */
another version\tHOA: v2 States: 1 Start: 0 Acceptance: 1 Inf(0) --BODY-- --END--
a point behind v1\tHOA: v1.1 States: 1 Start: 0 Acceptance: 1 Inf(0) --BODY-- --END--
the colon apart\tHOA : v1 States: 1 Start: 0 Acceptance: 1 Inf(0) --BODY-- --END--
another header\tStates: 1 HOA: v1 Start: 0 Acceptance: 1 Inf(0) --BODY-- --END--
";

// Behind `HOA: v1`: a header that is missing or wrong.
const REQUIRED: &str = "no States\tStart: 0 Acceptance: 1 Inf(0) --BODY-- --END--
no Start\tStates: 1 Acceptance: 1 Inf(0) --BODY-- --END--
no Acceptance\tStates: 1 Start: 0 --BODY-- --END--
none of the three\t--BODY-- --END--
a number above 65535\tStates: 65536 Start: 0 Acceptance: 1 Inf(0) --BODY-- --END--
such a start\tStates: 1 Start: 65536 Acceptance: 1 Inf(0) --BODY-- --END--
a leading zero\tStates: 01 Start: 0 Acceptance: 1 Inf(0) --BODY-- --END--
a set of starts\tStates: 1 Start: 0&0 Acceptance: 1 Inf(0) --BODY-- --END--
a word for a number\tStates: one Start: 0 Acceptance: 1 Inf(0) --BODY-- --END--
generalised acceptance\tStates: 1 Start: 0 Acceptance: 2 Inf(0)&Inf(1) --BODY-- --END--
acceptance of the other kind\tStates: 1 Start: 0 Acceptance: 1 Fin(0) --BODY-- --END--
every run\tStates: 1 Start: 0 Acceptance: 0 t --BODY-- --END--
another set\tStates: 1 Start: 0 Acceptance: 1 Inf(1) --BODY-- --END--
the rest of a set\tStates: 1 Start: 0 Acceptance: 1 Inf(!0) --BODY-- --END--
bracketed acceptance\tStates: 1 Start: 0 Acceptance: 1 (Inf(0)) --BODY-- --END--
an acceptance that goes on\tStates: 1 Start: 0 Acceptance: 1 Inf(0)|f --BODY-- --END--
";

// The three required headers, rightly.
const WHOLE: &str = "HOA: v1 States: 1 Start: 0 Acceptance: 1 Inf(0) ";

// Behind those: headers that cannot stand there.
const MORE: &str = "States again\tStates: 1 --BODY-- --END--
Start again\tStart: 0 --BODY-- --END--
Acceptance again\tAcceptance: 1 Inf(0) --BODY-- --END--
AP again\tAP: 0 AP: 0 --BODY-- --END--
HOA again\tHOA: v1 --BODY-- --END--
a fifth proposition\tAP: 5 \"a\" \"b\" \"c\" \"d\" \"e\" --BODY-- --END--
a name too few\tAP: 2 \"a\" --BODY-- --END--
a name too many\tAP: 1 \"a\" \"b\" --BODY-- --END--
no number of names\tAP: \"a\" --BODY-- --END--
a name without quotes\tAP: 1 a --BODY-- --END--
an unclosed text\tAP: 1 \"a --BODY-- --END--
a text whose last quote is part of it\tAP: 1 \"a\\\" --BODY-- --END--
an unclosed comment\tAP: 1 \"a\" /* /* */ --BODY-- --END--
an alias\tAlias: @a 0 --BODY-- --END--
an unknown word in capitals\tFairness: 1 --BODY-- --END--
a word with no letter first\t_x: 1 --BODY-- --END--
a state before the body\tState: 0 --BODY-- --END--
a skipped header with no value\tname: @a --BODY-- --END--
a minus\tname: \"a\" -1 --BODY-- --END--
a skipped number above 65535\tname: 65536 --BODY-- --END--
a skipped leading zero\tname: 01 --BODY-- --END--
a number for a header\t1 --BODY-- --END--
no body\t
";

pub fn run(rt: &impl Print) -> io::Result<()> {
    println!(rt; "headers")?;
    try_list(rt, FIRST, "", PROGRAM)?;
    try_list(rt, REQUIRED, "HOA: v1 ", PROGRAM)?;
    try_list(rt, MORE, WHOLE, PROGRAM)
}
