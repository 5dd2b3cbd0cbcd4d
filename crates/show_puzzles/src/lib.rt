// Puzzles whose steps follow from their numbers.
#![tactic(auto)]

ghost use Rattle.std.specs.Prelude.{◌≤◌, ◌<◌};

use sets::word;
use show_trials::{Job, Step};

#[derive(Clone, Copy)]
pub enum Puzzle {
    Row,
    Tower,
    Chinese,
    Robots,
    Crowd,
    Lamps,
}

// Step i leads from fact i to the next.
fn row_step(i: usize) -> Step
    requires { i < 32 }
{
    Step {
        needs: word::unit(i),
        gives: word::unit(i + 1),
        takes: word::unit(i),
    }
}

// Disc d is on peg p: one of six facts of the disc.
fn on(d: usize, p: usize) -> u64
    requires { (d < 6) × (p < 3) }
{
    word::unit(6 * d + p)
}

// Disc d is not on peg p.
fn off(d: usize, p: usize) -> u64
    requires { (d < 6) × (p < 3) }
{
    word::unit(6 * d + 3 + p)
}

// Fact 0 of each of n discs: it is on peg 0.
fn discs(n: usize) -> u64
    requires { n < 6 }
{
    0x104_1041 & word::full(6 * n)
}

// The discs that are smaller than d are not on peg p.
fn clear(d: usize, p: usize) -> u64
    requires { (d < 6) × (p < 3) }
{
    discs(d) << (3 + p)
}

// Disc d goes from peg p to peg q.
fn disc_step(d: usize, p: usize, q: usize) -> Step
    requires { (d < 6) × (p < 3) × (q < 3) }
{
    Step {
        needs: on(d, p) | clear(d, p) | clear(d, q),
        gives: on(d, q) | off(d, p),
        takes: on(d, p) | off(d, q),
    }
}

// Six steps a disc, two from each peg.
fn tower_step(i: usize) -> Step
    requires { i < 32 }
{
    let p = i % 6 / 2;
    disc_step(i / 6, p, (p + 1 + i % 2) % 3)
}

// What ring r of a Chinese puzzle asks of the rings before it: the last of them is on, the others are
// off. Fact 2r says that ring r is on, and 2r + 1 that it is off.
fn before(r: usize) -> u64
    requires { r < 16 }
{
    if r == 0 {
        return 0;
    }
    let last = 2 * r - 2;
    word::unit(last) | (0xaaaa_aaaa & word::full(last))
}

fn chinese_step(i: usize) -> Step
    requires { i < 32 }
{
    let ring = i / 2;
    Step {
        needs: word::unit(i) | before(ring),
        gives: word::unit(2 * ring + 1 - i % 2),
        takes: word::unit(i),
    }
}

// A robot that is `here` goes `there`: the place that it leaves is free after it, and the one that it
// goes to was free before. All four are facts.
fn go(here: usize, there: usize, leaves: usize, enters: usize) -> Step
    requires { (here < 64) × (there < 64) × (leaves < 64) × (enters < 64) }
{
    let before = word::unit(here) | word::unit(enters);
    Step {
        needs: before,
        gives: word::unit(there) | word::unit(leaves),
        takes: before,
    }
}

// To the next of the places on a ring. Step i leaves the place of fact i; the facts from `free` on say
// which places are free.
fn ring_step(i: usize, places: usize, free: usize) -> Step
    requires { (i < 32) × (0 < places) × (places ≤ 6) × (free ≤ 25) }
{
    let from = i % places;
    let to = (from + 1) % places;
    go(i, i - from + to, free + from, free + to)
}

// The lamp after this one, on a ring of 6 or on one of 10.
fn next_lamp(j: usize) -> usize
    requires { j < 16 }
    ensures { result < 16 }
{
    if j == 5 {
        return 0;
    }
    if j == 15 {
        return 6;
    }
    j + 1
}

// Lamp j is lit, or dark if `dark` is 1.
fn lamp(j: usize, dark: usize) -> u64
    requires { (j < 16) × (dark < 2) }
{
    word::unit(2 * j + dark)
}

// Two neighbours that are both lit are switched off, and two that are both dark are switched on.
fn lamp_step(i: usize) -> Step
    requires { i < 32 }
{
    let j = i / 2;
    let next = next_lamp(j);
    let now = i % 2;
    let both = lamp(j, now) | lamp(next, now);
    Step {
        needs: both,
        gives: lamp(j, 1 - now) | lamp(next, 1 - now),
        takes: both,
    }
}

fn step_of(puzzle: Puzzle, i: usize) -> Step
    requires { i < 32 }
{
    match puzzle {
        Puzzle::Row => row_step(i),
        Puzzle::Tower => tower_step(i),
        Puzzle::Chinese => chinese_step(i),
        Puzzle::Robots => ring_step(i, 6, 24),
        Puzzle::Crowd => ring_step(i, 5, 25),
        Puzzle::Lamps => lamp_step(i),
    }
}

// The job with the first n steps of a puzzle.
pub fn stepped(bare: Job, puzzle: Puzzle, n: usize) -> Job
    requires { n ≤ 32 }
{
    let mut job = bare;
    for i in 0..n {
        job = job.with(step_of(puzzle, i));
    }
    job
}

// A tower of discs goes from peg 0 to peg 2.
pub fn tower(n: usize, horizon: u8) -> Job
    requires { n < 6 }
{
    let all = discs(n);
    let bare = Job::bare(
        (6 * n) as u8,
        horizon,
        all | (all << 4) | (all << 5),
        all << 2,
    );
    stepped(bare, Puzzle::Tower, 6 * n)
}

// A Chinese puzzle of n rings: `on` has the facts at the start, `goal` those that are wanted.
pub fn chinese(n: usize, on: u64, goal: u64) -> Job
    requires { n ≤ 16 }
{
    let bare = Job::bare((2 * n) as u8, 16, on, goal);
    stepped(bare, Puzzle::Chinese, 2 * n)
}
