// What the programs that show print with.
#![tactic(auto)]

use sets::word;
use std::io;

pub fn say(rt: &impl Print, text: &[u8]) -> io::Result<()> {
    rt.write_all(text)
}

// A text, and a number after it.
pub fn say_number(rt: &impl Print, text: &[u8], x: u64) -> io::Result<()> {
    say(rt, text)?;
    rt.print(x)
}

// The members of a word from the lowest up, a space before each.
pub fn members(rt: &impl Print, s: u64) -> io::Result<()> {
    let mut left = s;
    while left != 0 {
        say_number(rt, b" ", word::lowest(left) as u64)?;
        left = word::rest(left);
    }
    Ok(())
}
