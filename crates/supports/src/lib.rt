// What plan extraction asks of one round layer: which of its vertices the facts open, a selection of it
// for the facts (supporting actions, with keepers for no-ops), and facts that no selection covers. Each
// question is one of the choice's.
#![tactic(auto)]

ghost use Rattle.std.specs.Prelude.{◌≡◌, ℕ, ◌+◌, ◌*◌, ◌≤◌, ◌<◌, length, get_or};
ghost use Rattle.sets.specs.Sets.{bit, ◌⊆◌, part};
ghost use Rattle.network.specs.Network.{listed, Cover};
ghost use Rattle.network.specs.Tables.{Tabled};
ghost use Rattle.choice.specs.Choice.{smallest};
ghost use Rattle.choice.specs.Meaning.{found_by};
ghost use Rattle.supports.specs.Supports.{row_of, Opens, Uncovered};

use sets::word;

// The mutex words of one round layer: one for each vertex.
pub const ROW: usize = 64;

// Whether the needs of a vertex lie in the facts.
fn allows(needs: &[u64; 64], v: usize, may: u64) -> bool
    requires { v < 64 }
    ensures { result ≡ part (get_or needs.now v 0) may }
{
    word::without(needs[v], may) == 0
}

// The vertices whose needs lie in the facts.
pub fn open_to(needs: &[u64; 64], members: u64, may: u64) -> u64
    ensures { Opens needs.now members may result }
{
    let mut open: u64 = 0;
    let mut left = members;
    while left != 0 {
        let v = word::lowest(left);
        let up = allows(needs, v, may);
        open = word::more_if(open, v, up);
        left = word::rest(left);
    }
    open
}

// The mutex words of round layer j + 1.
fn row(words: &[u64], j: usize) -> [u64; 64]
    requires { (j < 16) × (64 * j + 64 ≤ length words.now) }
    ensures { result ≡ row_of words.now j }
{
    let at = ROW * j;
    let mut all: [u64; 64] = [0; 64];
    all.copy_from_slice(&words[at..at + ROW]);
    all
}

// The smallest selection of round layer j + 1 within the allowed vertices for the facts.
pub fn ask(
    gives: &[u64; 64],
    carriers: &[u64; 64],
    words: &[u64],
    j: usize,
    allowed: u64,
    facts: u64,
) -> Option<u64>
    requires { (j < 16) × (64 * j + 64 ≤ length words.now) × Tabled 64 gives.now (row_of words.now j) carriers.now }
    ensures { result ≡ found_by (smallest (listed 64 gives.now (row_of words.now j)) allowed facts 0) }
{
    let mutex = row(words, j);
    choice::smallest(gives, &mutex, carriers, allowed, facts, 0)
}

// One turn of `explain`: of the facts e, which no selection covers, those without b if no selection
// covers these either, and else e as it is. b is a fact outside `why`; the other arguments are those of
// `explain`, with the mutex words of the one round layer.
fn fewer(
    gives: &[u64; 64],
    carriers: &[u64; 64],
    mutex: &[u64; 64],
    allowed: u64,
    facts: u64,
    why: u64,
    e: u64,
    b: usize,
) -> u64
    requires tabled { Tabled 64 gives.now mutex.now carriers.now }
    requires b_bound { (b < 64) × (bit why b ≡ 0) × Uncovered gives.now mutex.now allowed facts why e }
    ensures { Uncovered gives.now mutex.now allowed facts why result }
{
    let less = word::less(e, b);
    if choice::coverable(gives, mutex, carriers, allowed, less) {
        return e;
    }
    less
}

// A minimal explanation, by deletion: why no selection of round layer j + 1 covers the facts. `gives`
// has what each vertex gives, `carriers` the vertices that give each fact, `words` the mutex words of
// all layers. `allowed` are the vertices that may be taken, and `why` are facts that the explanation
// has to have.
//
// Each fact outside `why` is left out in turn, and stays out if no selection covers the others either.
// What falls is the set of the facts whose turn is still to come, as a number. The answer is a part of
// the facts, with all of `why`, that no selection covers; no fact outside `why` can be left out of it.
pub fn explain(
    gives: &[u64; 64],
    carriers: &[u64; 64],
    words: &[u64],
    j: usize,
    allowed: u64,
    facts: u64,
    why: u64,
) -> u64
    requires j_bound { (j < 16) × (64 * j + 64 ≤ length words.now) × Tabled 64 gives.now (row_of words.now j) carriers.now }
    requires why { (why ⊆ facts) × ((x : ℕ) → Cover (listed 64 gives.now (row_of words.now j)) allowed facts x → ⊥) }
    ensures { Uncovered gives.now (row_of words.now j) allowed facts why result }
{
    let mutex = row(words, j);
    let mut e = facts;
    let mut left = word::without(facts, why);
    while left != 0 {
        let b = word::lowest(left);
        e = fewer(gives, carriers, &mutex, allowed, facts, why, e, b);
        left = word::rest(left);
    }
    e
}
