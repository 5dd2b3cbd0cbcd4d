// A round layer: its vertices, and which of them are mutex. The needs are facts, so they are below
// 2 ^ 32, and of the facts' words only the first 32 count.
ghost use Rattle.std.specs.Prelude.{◌≡◌, List, [], ℕ, ◌+◌, ◌^◌, ◌≤◌, ◌<◌, get_or};
ghost use Rattle.sets.specs.Ranges.{list_to};
ghost use Rattle.sets.specs.Sets.{member, meets};
ghost use Rattle.sets.specs.Tables.{transposed};
ghost use Rattle.planning.specs.Rounds.{listed_steps};
ghost use Rattle.planning.specs.Layers.{mutex_word, mutexes, stands, standing, rivals};
ghost use Rattle.layers.specs.Meaning.{layer, uses, Turned};

use crate::{FACTS, VERTICES, Vertices};
use sets::{table, word};

// Whether a vertex is in the layer over the facts with their mutex words.
fn stands(needs: &[u64; 64], x: usize, facts: u64, words: &[u64; 64]) -> bool
    requires x_bound { x < 64 }
    requires by_index { (v : ℕ) → v < 64 → get_or needs.now v 0 < 2 ^ 32 }
    ensures { result ≡ stands 32 (listed_steps needs.now [] []) (layer facts words.now) x }
{
    let n = needs[x];
    if word::without(n, facts) != 0 {
        return false;
    }
    word::gather(words, n) & n == 0
}

// The vertices that are in the layer.
pub fn standing(needs: &[u64; 64], count: usize, facts: u64, words: &[u64; 64]) -> u64
    requires count_bound { count ≤ 32 }
    requires by_index { (v : ℕ) → v < 64 → get_or needs.now v 0 < 2 ^ 32 }
    ensures { result ≡ standing 32 (listed_steps needs.now [] []) (32 + count) (layer facts words.now) }
{
    let mut set: u64 = 0;
    for x in 0..FACTS + count {
        let up = stands(needs, x, facts, words);
        set = word::more_if(set, x, up);
    }
    set
}

// What each vertex needs or gives.
fn used(vertices: &Vertices) -> [u64; 64]
    ensures { result ≡ list_to 64 (uses (listed_steps vertices.now.needs vertices.now.gives [])) }
{
    let mut all: [u64; 64] = [0; 64];
    for x in 0..VERTICES {
        all[x] = vertices.needs[x] | vertices.gives[x];
    }
    all
}

// For each fact, users need or give it, takers take it, and needers need it.
#[derive(Clone, Copy)]
struct ByFact {
    users: [u64; 64],
    takers: [u64; 64],
    needers: [u64; 64],
}

fn by_fact(vertices: &Vertices) -> ByFact
    ensures { Turned vertices.now.needs vertices.now.gives vertices.now.takes result.users result.takers result.needers }
{
    ByFact {
        users: table::transposed(&used(vertices)),
        takers: table::transposed(&vertices.takes),
        needers: table::transposed(&vertices.needs),
    }
}

// The numbers whose set shares a member with s; their table of sets comes turned round.
fn meeting(turned: &[u64; 64], s: u64) -> u64
    ensures { (table : List ℕ) → turned.now ≡ transposed 64 table → (y : ℕ) → y < 64 → member result y ≡ meets s (get_or table y 0) }
{
    word::gather(turned, s)
}

// Those that x is mutex with: it takes what they need or give, they take what it needs or gives, or they
// need a fact that is mutex with a need of x. An absent vertex has none.
fn row(vertices: &Vertices, by_fact: &ByFact, words: &[u64; 64], members: u64, x: usize) -> u64
    requires x_bound { x < 64 }
    requires by_index { (v : ℕ) → v < 64 → get_or vertices.now.needs v 0 < 2 ^ 32 }
    requires turned { Turned vertices.now.needs vertices.now.gives vertices.now.takes by_fact.now.users by_fact.now.takers by_fact.now.needers }
    ensures { result ≡ mutex_word 64 members (rivals 32 (listed_steps vertices.now.needs vertices.now.gives vertices.now.takes) (layer 0 words.now)) x }
{
    if word::bit_at(members, x) == 0 {
        return 0;
    }
    let others = word::less(members, x);
    let need = vertices.needs[x];
    let disturbed = meeting(&by_fact.users, vertices.takes[x]);
    let disturbing = meeting(&by_fact.takers, need | vertices.gives[x]);
    let against = word::gather(words, need);
    let opposed = meeting(&by_fact.needers, against);
    others & (disturbed | disturbing | opposed)
}

// The words of all.
pub fn words(vertices: &Vertices, words: &[u64; 64], members: u64) -> [u64; 64]
    requires { (v : ℕ) → v < 64 → get_or vertices.now.needs v 0 < 2 ^ 32 }
    ensures { result ≡ mutexes 64 members (rivals 32 (listed_steps vertices.now.needs vertices.now.gives vertices.now.takes) (layer 0 words.now)) }
{
    let by_fact = by_fact(vertices);
    let mut all: [u64; 64] = [0; 64];
    for x in 0..VERTICES {
        all[x] = row(vertices, &by_fact, words, members, x);
    }
    all
}
