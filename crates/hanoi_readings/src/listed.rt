// Files in a list, one to a line: a title, a tab, and the file behind a front that all of the list have.
use super::tried::try_whole;
use hanoi::Limits;
use std::io;

// Room for a file.
const ROOM: usize = 256;

// Reads the files of a list, and prints the title of each first.
pub fn try_list(rt: &impl Print, list: &str, front: &str, limits: Limits) -> io::Result<()> {
    for line in list.split_terminator('\n') {
        let Some((title, file)) = line.split_once('\t') else {
            println!(rt; "{line}")?;
            continue;
        };
        print!(rt; "{title}\t")?;
        let mut text = [0u8; ROOM];
        let start = fields::put_bytes(&mut text, 0, front.as_bytes());
        let end = fields::put_bytes(&mut text, start, file.as_bytes());
        if let Some(text) = text.get(..end) {
            try_whole(rt, text, limits)?;
        }
    }
    Ok(())
}
