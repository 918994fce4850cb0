// Files cut short: each must be refused.
use super::tried::refused_within;
use super::writers::{DEEP, HAND, SPOT};
use std::io;

// Cuts a file after each of its bytes but the last, and prints its length, and each cut that is not refused as it should.
fn cut(rt: &impl Print, text: &[u8]) -> io::Result<()> {
    print!(rt; "cut\t{}", text.len())?;
    for i in 0..text.len() {
        if !refused_within(&text[..i]) {
            print!(rt; "\t{i}")?;
        }
    }
    println!(rt)
}

pub fn run(rt: &impl Print) -> io::Result<()> {
    println!(rt; "files cut short")?;
    cut(rt, SPOT)?;
    cut(rt, HAND)?;
    cut(rt, DEEP)
}
