// Shows the set operations at their edges: the numbers 0, 63, 64, 2^32 and 2^63, and the empty and
// the full set. reference/sets.py prints the same text from sets of its own.
#![tactic(auto)]

use sets::{ArticleSet, word};
use std::io;

// A set as its number and its count.
fn show(rt: &impl Print, s: ArticleSet) -> io::Result<()> {
    show_print::say_number(rt, b" ", s.bits)?;
    show_print::say_number(rt, b" count ", s.count() as u64)
}

// Every article that there is room for, taken one after the other.
fn filled() -> ArticleSet {
    let mut s = ArticleSet::empty();
    for i in 0..ArticleSet::CAPACITY {
        s = s.with(i);
    }
    s
}

// What a set does with a number: whether it is a member, what is there after taking it, after
// taking it again, and after giving it up.
fn edge(rt: &impl Print, s: ArticleSet, article: usize) -> io::Result<()> {
    show_print::say_number(rt, b"  article ", article as u64)?;
    let place: &[u8] = if s.contains(article) { b" in" } else { b" out" };
    show_print::say(rt, place)?;
    show_print::say(rt, b", with:")?;
    show(rt, s.with(article))?;
    show_print::say(rt, b", again:")?;
    show(rt, s.with(article).with(article))?;
    show_print::say(rt, b", without:")?;
    show(rt, s.without(article))?;
    show_print::say(rt, b"\n")
}

fn edges(rt: &impl Print, name: &[u8], s: ArticleSet) -> io::Result<()> {
    show_print::say(rt, name)?;
    show_print::say(rt, b":")?;
    show(rt, s)?;
    show_print::say(rt, b"\n")?;
    for article in [0, 63, 64, 0x1_0000_0000, 0x8000_0000_0000_0000] {
        edge(rt, s, article)?;
    }
    Ok(())
}

fn members(rt: &impl Print, s: u64) -> io::Result<()> {
    show_print::say_number(rt, b"members of ", s)?;
    show_print::say(rt, b":")?;
    show_print::members(rt, s)?;
    show_print::say(rt, b"\n")
}

// What the members of a word have together.
fn gathered(rt: &impl Print, table: &[u64; 64], s: u64) -> io::Result<()> {
    show_print::say_number(rt, b"gathered from ", s)?;
    show_print::say_number(rt, b": ", word::gather(table, s))?;
    show_print::say(rt, b"\n")
}

fn main(rt: HostRuntime) -> io::Result<()> {
    show_print::say_number(&rt, b"capacity ", ArticleSet::CAPACITY as u64)?;
    show_print::say(&rt, b"\n")?;
    edges(&rt, b"empty", ArticleSet::empty())?;
    edges(&rt, b"full", filled())?;
    for s in [0, 1, 0x8000_0000_0000_0001, 0x8000_0001_0000_0000] {
        members(&rt, s)?;
    }
    let mut table = [0u64; 64];
    table[0] = 6;
    table[63] = 0x8000_0000_0000_0002;
    for s in [0, 1, 2, 0x8000_0000_0000_0001] {
        gathered(&rt, &table, s)?;
    }
    Ok(())
}
