// The file of a job.
ghost use Rattle.std.specs.Prelude.{◌+◌, ◌≤◌};

use crate::{Job, STEPS};

// The bytes of the longest file: 12, and 13 for each of 32 steps with three fields.
const LONGEST: usize = 428;

// A file: its bytes, and how many of them there are.
#[derive(Clone, Copy)]
pub struct File {
    pub bytes: [u8; LONGEST],
    pub len: usize,
}

// The four bytes of a set, the lowest first.
fn set(bytes: &mut [u8; LONGEST], at: usize, s: u64)
    requires { at + 4 ≤ 428 }
{
    bytes[at..at + 4].copy_from_slice(&s.to_le_bytes()[..4]);
}

// The bit of a field, if the field is there; else 0.
fn mark(s: u64, bit: u8) -> u8 {
    if s == 0 {
        return 0;
    }
    bit
}

// A field is there if its set has members. The place after it.
fn field(bytes: &mut [u8; LONGEST], at: usize, s: u64) -> usize
    requires { at + 4 ≤ 428 }
    ensures { result ≤ at + 4 }
{
    if s == 0 {
        return at;
    }
    set(bytes, at, s);
    at + 4
}

// The record of a step. The place after it.
fn record(bytes: &mut [u8; LONGEST], at: usize, needs: u64, gives: u64, takes: u64) -> usize
    requires { at + 13 ≤ 428 }
    ensures { result ≤ at + 13 }
{
    bytes[at] = mark(needs, 1) | mark(gives, 2) | mark(takes, 4);
    let a = field(bytes, at + 1, needs);
    let b = field(bytes, a, gives);
    field(bytes, b, takes)
}

// How many records a file of this job has.
fn count(steps: u8) -> usize
    ensures { result ≤ 32 }
{
    usize::from(steps.min(STEPS))
}

pub fn written(job: Job) -> File
    ensures { result.len ≤ 428 }
{
    let needs = job.needs;
    let gives = job.gives;
    let takes = job.takes;
    let n = count(job.steps);
    let mut bytes = [0u8; LONGEST];
    bytes[0] = 70;
    bytes[1] = job.steps;
    bytes[2] = job.facts;
    bytes[3] = job.horizon;
    set(&mut bytes, 4, job.start);
    set(&mut bytes, 8, job.goal);
    let mut at: usize = 12;
    for i in 0..n {
        at = record(&mut bytes, at, needs[i], gives[i], takes[i]);
    }
    File { bytes, len: at }
}
