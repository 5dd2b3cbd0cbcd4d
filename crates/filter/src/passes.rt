// A pass for each goal of a list, in turn, and how far the wishes can go.
ghost use Rattle.std.specs.Prelude.{◌≡◌, [], ℕ, ◌≤◌, ◌<◌, length, get_or};
ghost use Rattle.sets.specs.Sets.{full};
ghost use Rattle.network.specs.Network.{listed};
ghost use Rattle.filter.specs.Filter.{first_short, live_before};

use sets::word;

// How far the passes come: to the first goal that falls short, or to the end of the list; and what is
// live there.
#[derive(Clone, Copy)]
pub struct Reached {
    pub live: u64,
    pub short: usize,
}

// A pass for each goal, in turn, up to the first that falls short.
pub fn pass_each(wishes: &[u64; 64], groups: &[u8], n: usize, goals: &[u64]) -> Reached
    requires { (n ≤ 64) × (n ≤ length groups.now) × ((u : ℕ) → u < n → get_or groups.now u 0 < n) }
    ensures short_value { result.short ≡ first_short (listed n wishes.now []) (λ u. get_or groups.now u 0) (full n) goals.now }
    ensures live_value { result.live ≡ live_before (listed n wishes.now []) (λ u. get_or groups.now u 0) (full n) goals.now result.short }
{
    let all = word::full(n);
    let mut live = all;
    for (i, &goal) in goals.iter().enumerate() {
        let passed = crate::pass(wishes, groups, n, live, goal);
        if passed.sum < word::count(goal) as u64 {
            return Reached { live, short: i };
        }
        live = passed.live;
    }
    Reached {
        live,
        short: goals.len(),
    }
}
