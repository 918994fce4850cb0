// Looks at tables at rest that are not the least, and prints what it saw; the file `stdout` has what it should.
#![tactic(auto)]

mod played; // played.rt: play by the replies of a table at rest
mod tables; // tables.rt: tables lifted to rest, and what is read off them

use std::io;

fn main(rt: HostRuntime) -> io::Result<()> {
    tables::run(&rt)
}
