// The projection filter on words, and what is lent to it.
#![tactic(auto)]

ghost use Rattle.std.specs.Prelude.{◌≡◌, ◌&&◌, [], ℕ, ◌+◌, ◌≤◌, ◌<◌, leb, length, get_or};
ghost use Rattle.std.specs.Int.Bits.{bit_and};
ghost use Rattle.sets.specs.Ranges.{given, sum_to, list_to};
ghost use Rattle.sets.specs.Sets.{member, without, count};
ghost use Rattle.network.specs.Network.{listed};
ghost use Rattle.filter.specs.Filter.{contribution, total, pass};

pub mod goals;
pub mod passes;

use sets::word;

// The most groups: as many as there may be articles.
const GROUPS: usize = 64;

// How many wishes of the goal article u carries; none if it is not live.
fn carried(wishes: &[u64; 64], u: usize, live: u64, goal: u64) -> u64
    requires { u < 64 }
    ensures { result ≡ given (member live u) (count (bit_and (get_or wishes.now u 0) goal)) }
{
    if word::bit_at(live, u) == 1 {
        return word::count(wishes[u] & goal) as u64;
    }
    0
}

// The contributions of the groups.
fn contributions(wishes: &[u64; 64], groups: &[u8], n: usize, live: u64, goal: u64) -> [u64; 64]
    requires { (n ≤ 64) × (n ≤ length groups.now) × ((u : ℕ) → u < n → get_or groups.now u 0 < n) }
    ensures { result ≡ list_to 64 (λ j. contribution (listed n wishes.now []) (λ u. get_or groups.now u 0) live goal j) }
{
    let mut best: [u64; 64] = [0; 64];
    for u in 0..n {
        let j = groups[u] as usize;
        let x = carried(wishes, u, live, goal);
        best[j] = u64::max(best[j], x);
    }
    best
}

// The sum of 64 words, none of which is above 64.
fn sum(best: &[u64; 64]) -> u64
    requires { (j : ℕ) → j < 64 → get_or best.now j 0 ≤ 64 }
    ensures value { result ≡ sum_to 64 (λ j. get_or best.now j 0) }
    ensures upper_bound { result ≤ 4096 }
{
    let mut all: u64 = 0;
    for j in 0..GROUPS {
        all += best[j];
    }
    all
}

// Whether an article's own share and what the rest contributes reach what is wanted.
fn reaches(want: u64, own: u64, rest: u64) -> bool
    requires { (own ≤ 64) × (rest ≤ 4096) }
    ensures { result ≡ leb want (rest + own) }
{
    want <= rest + own
}

// Whether v is live and supported. Wanted are all wishes of the goal: what it has beyond those of v
// is its count less the share of v.
fn stays(wishes: &[u64; 64], v: usize, live: u64, goal: u64, want: u64, rest: u64) -> bool
    requires { (v < 64) × (want ≡ count goal) × (rest ≤ 4096) }
    ensures { result ≡ (member live v && leb (count (without goal (get_or wishes.now v 0))) rest) }
{
    if word::bit_at(live, v) == 1 {
        let own = word::count(wishes[v] & goal) as u64;
        return reaches(want, own, rest);
    }
    false
}

// What comes of a pass: the articles that it leaves live, and what all groups contributed to its goal.
#[derive(Clone, Copy)]
pub struct Passed {
    pub live: u64,
    pub sum: u64,
}

// A pass of the filter.
pub fn pass(wishes: &[u64; 64], groups: &[u8], n: usize, live: u64, goal: u64) -> Passed
    requires { (n ≤ 64) × (n ≤ length groups.now) × ((u : ℕ) → u < n → get_or groups.now u 0 < n) }
    ensures live_value { result.live ≡ pass (listed n wishes.now []) (λ u. get_or groups.now u 0) live goal }
    ensures sum_value { result.sum ≡ total (listed n wishes.now []) (λ u. get_or groups.now u 0) live goal }
{
    let best = contributions(wishes, groups, n, live, goal);
    let all = sum(&best);
    let want = word::count(goal) as u64;
    let mut kept: u64 = 0;
    for v in 0..n {
        let j = groups[v] as usize;
        let rest = all - best[j];
        let staying = stays(wishes, v, live, goal, want, rest);
        kept = word::more_if(kept, v, staying);
    }
    Passed {
        live: kept,
        sum: all,
    }
}
