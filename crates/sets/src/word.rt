// Sets in one word of 64 bits. What a function asks of its caller is proved at each call; nothing
// is tested or refused at run time.
ghost use Rattle.std.specs.Prelude.{◌≡◌, suc, ◌≤◌, ◌<◌, ◌^◌, leb, get_or};
ghost use Rattle.std.specs.Int.Bits.{bit_or};
ghost use Rattle.sets.specs.Ranges.{given};
ghost use Rattle.sets.specs.Sets.{bit, without, full, count, lowest, gathered};

// The bits of a word: the members of a set are below this number.
pub const WIDTH: usize = 64;

// The set of all these numbers.
pub const ALL: u64 = 0xffff_ffff_ffff_ffff;

// The highest of them.
const LAST: usize = 63;

// The set whose one member is i.
pub fn unit(i: usize) -> u64
    requires { i < 64 }
    ensures { result ≡ 2 ^ i }
{
    1u64 << i
}

// Bit i of s, as a number: a test `bit_at(s, i) == 1` tells its branches a plain equation.
pub fn bit_at(s: u64, i: usize) -> u64
    requires { i < 64 }
    ensures { result ≡ bit s i }
{
    (s >> i) % 2
}

// The members of a that b lacks.
pub fn without(a: u64, b: u64) -> u64
    ensures { result ≡ without a b }
{
    a & !b
}

// s with the member i, too.
pub fn more(s: u64, i: usize) -> u64
    requires { i < 64 }
    ensures { result ≡ bit_or s (2 ^ i) }
{
    s | unit(i)
}

// s less the member i.
pub fn less(s: u64, i: usize) -> u64
    requires { i < 64 }
    ensures { result ≡ without s (2 ^ i) }
{
    without(s, unit(i))
}

// s, with the member i if the test passed.
pub fn more_if(s: u64, i: usize, passed: bool) -> u64
    requires { i < 64 }
    ensures { result ≡ bit_or s (given passed (2 ^ i)) }
{
    if passed {
        return more(s, i);
    }
    s
}

// Whether s has a member at or above the limit.
pub fn exceeds(s: u64, limit: usize) -> bool
    ensures { result ≡ leb (2 ^ limit) s }
{
    if WIDTH <= limit {
        return false;
    }
    (s >> limit) != 0
}

// All numbers below n.
pub fn full(n: usize) -> u64
    requires { n ≤ 64 }
    ensures { result ≡ full n }
{
    if n == WIDTH {
        return ALL;
    }
    unit(n) - 1
}

// How many members s has.
pub fn count(s: u64) -> u32
    ensures value { result ≡ count s }
    ensures upper_bound { result < 65 }
{
    u64::count_ones(s)
}

// The lowest member of s, which has one.
pub fn lowest(s: u64) -> usize
    requires { s ≡ 0 → ⊥ }
    ensures value { result ≡ lowest 64 s }
    ensures upper_bound { result < 64 }
{
    u64::trailing_zeros(s) as usize
}

// The highest member of s, which has one.
pub fn highest(s: u64) -> usize
    requires { s ≡ 0 → ⊥ }
    ensures { (result < 64) × (2 ^ result ≤ s) × (s < 2 ^ suc result) }
{
    LAST - (u64::leading_zeros(s) as usize)
}

// s less its lowest member, which it has.
pub fn rest(s: u64) -> u64
    requires { s ≡ 0 → ⊥ }
    ensures value { result ≡ without s (2 ^ lowest 64 s) }
    ensures upper_bound { result < s }
{
    s & (s - 1)
}

// What the members of s have together, of a table with a set for each number. The members are
// visited from the lowest up, a turn each.
pub fn gather(table: &[u64; 64], s: u64) -> u64
    ensures { result ≡ gathered 64 s (λ i. get_or table.now i 0) }
{
    let mut all: u64 = 0;
    let mut left = s;
    while left != 0 {
        let i = lowest(left);
        all = all | table[i];
        left = rest(left);
    }
    all
}
