// A fact layer: which facts are mutex.
ghost use Rattle.std.specs.Prelude.{◌≡◌, not, ◌&&◌, ◌||◌, [], ◌<◌, get_or};
ghost use Rattle.sets.specs.Ranges.{every_to};
ghost use Rattle.sets.specs.Sets.{member, meets, set_of, gathered};
ghost use Rattle.jobfile.specs.Meaning.{padded};
ghost use Rattle.sets.specs.Tables.{transposed};
ghost use Rattle.planning.specs.Rounds.{listed_steps};
ghost use Rattle.planning.specs.Layers.{mutex_word, mutexes, excluded};
ghost use Rattle.layers.specs.Meaning.{layer};

use crate::{ALL_FACTS, FACTS};
use sets::word;

// Those that are mutex with all members of the set.
fn common(words: &[u64; 64], set: u64) -> u64
    ensures { result ≡ set_of 64 (λ y. every_to 64 (λ x. not (member set x) || member (get_or words.now x 0) y)) }
{
    let mut all: u64 = word::ALL;
    let mut left = set;
    while left != 0 {
        let x = word::lowest(left);
        all = all & words[x];
        left = word::rest(left);
    }
    all
}

// Of the set those facts that no free vertex gives; the table of what vertices give comes turned
// round.
fn ungiven(turned: &[u64; 64], free: u64, set: u64) -> u64
    ensures { result ≡ set_of 64 (λ q. member set q && not (meets free (get_or turned.now q 0))) }
{
    let mut kept: u64 = 0;
    let mut left = set;
    while left != 0 {
        let q = word::lowest(left);
        let none = free & turned[q] == 0;
        kept = word::more_if(kept, q, none);
        left = word::rest(left);
    }
    kept
}

// The facts that p is mutex with; an absent fact has none. Near are the facts that a vertex gives which is
// against p: mutex with all givers of p. Shared are those that a giver of p gives. The others that are near
// and not shared are likely, and in the row if only vertices against p give them.
fn row(
    gives: &[u64; 64],
    turned: &[u64; 64],
    words: &[u64; 64],
    members: u64,
    facts: u64,
    p: usize,
) -> u64
    requires p_bound { p < 64 }
    requires turned_value { turned.now ≡ transposed 64 gives.now }
    requires facts_value { facts ≡ gathered 64 members (λ x. get_or gives.now x 0) }
    ensures { result ≡ mutex_word 32 facts (excluded 32 (listed_steps [] gives.now []) (layer members words.now)) p }
{
    if word::bit_at(facts, p) == 0 {
        return 0;
    }
    let others = word::less(facts, p);
    let givers = turned[p] & members;
    let against = common(words, givers);
    let near = word::gather(gives, against);
    let shared = word::gather(gives, givers);
    let likely = word::without(others & near & ALL_FACTS, shared);
    let free = word::without(members, against);
    ungiven(turned, free, likely)
}

// The words of the 32 facts; 0 after them.
pub fn words(
    gives: &[u64; 64],
    turned: &[u64; 64],
    words: &[u64; 64],
    members: u64,
    facts: u64,
) -> [u64; 64]
    requires turned_value { turned.now ≡ transposed 64 gives.now }
    requires facts_value { facts ≡ gathered 64 members (λ x. get_or gives.now x 0) }
    ensures { result ≡ padded 64 (mutexes 32 facts (excluded 32 (listed_steps [] gives.now []) (layer members words.now))) }
{
    let mut all: [u64; 64] = [0; 64];
    for p in 0..FACTS {
        all[p] = row(gives, turned, words, members, facts, p);
    }
    all
}
