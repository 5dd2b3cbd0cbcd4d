// Drawn numbers and sets: the same ones in every run.
#![tactic(auto)]

ghost use Rattle.std.specs.Prelude.{◌<◌, ◌≤◌};

use sets::word;

// Marsaglia's xorshift of 64 bits: the number after x.
pub fn after(x: u64) -> u64 {
    let y = x ^ (x << 13);
    let z = y ^ (y >> 7);
    z ^ (z << 17)
}

// A number below n, by the upper half of x.
pub fn below(x: u64, n: u64) -> u64
    requires { 0 < n }
    ensures { result < n }
{
    (x >> 32) % n
}

// A set, and where the generator is after it.
#[derive(Clone, Copy)]
pub struct Draw {
    pub set: u64,
    pub x: u64,
}

// A set by `count` draws from the numbers below n; one may be drawn twice.
pub fn take(x: u64, count: u64, n: u64) -> Draw
    requires { (0 < n) × (n ≤ 64) }
{
    let mut d = Draw { set: 0, x };
    for _ in 0..count {
        d.x = after(d.x);
        d.set = word::more(d.set, below(d.x, n) as usize);
    }
    d
}

// A set by a count of draws that is drawn first: one of `choices` counts, from `least` on.
pub fn some(x: u64, least: u64, choices: u64, n: u64) -> Draw
    requires { (least < 64) × (0 < choices) × (choices < 64) × (0 < n) × (n ≤ 64) }
{
    let y = after(x);
    take(y, least + below(y, choices), n)
}
