// The layers of the planning graph on words of 64 bits: one from the one below it, and those of a fitting
// file as read by their number.
#![tactic(auto)]

ghost use Rattle.std.specs.Prelude.{◌≡◌, true, false, [], ℕ, ◌+◌, ◌^◌, ◌≤◌, ◌<◌, get_or};
ghost use Rattle.sets.specs.Ranges.{list_to};
ghost use Rattle.planning.specs.Rounds.{listed_steps};
ghost use Rattle.planning.specs.Layers.{round_over, facts_over, fact_layer, round_layer};
ghost use Rattle.planning.specs.Back.{Sized};
ghost use Rattle.planning.specs.Meaning.{fitting_in};
ghost use Rattle.layers.specs.Meaning.{layer, roomy, vertex_words};

mod facts;
mod keepers;
mod rounds;

use jobfile::ReadFitting;
use sets::{table, word};

// How many facts there can be, bits 0 to 31. Of the vertices, bit t is the keeper of fact t, and bit
// 32 + a is step a.
const FACTS: usize = 32;

// The set of all facts.
const ALL_FACTS: u64 = 0xffff_ffff;

// How many vertices there can be. A layer and a table of vertices have a word for each.
const VERTICES: usize = 64;

// The members of a layer, and for each of them those that it is mutex with.
#[derive(Clone, Copy)]
pub struct Layer {
    pub members: u64,
    pub words: [u64; 64],
}

// What each vertex needs, gives and takes.
#[derive(Clone, Copy)]
pub struct Vertices {
    pub needs: [u64; 64],
    pub gives: [u64; 64],
    pub takes: [u64; 64],
}

impl Vertices {
    // The vertices of a fitting file as read: a keeper needs and gives its own fact, and takes nothing.
    pub fn of(job: ReadFitting) -> Vertices
        ensures needs { result.needs ≡ list_to 64 (vertex_words 32 true job.needs) }
        ensures gives { result.gives ≡ list_to 64 (vertex_words 32 true job.gives) }
        ensures takes { result.takes ≡ list_to 64 (vertex_words 32 false job.takes) }
    {
        Vertices {
            needs: with_keepers(&job.needs),
            gives: with_keepers(&job.gives),
            takes: without_keepers(&job.takes),
        }
    }

    // The round layer over a fact layer.
    pub fn round_over(&self, count: usize, below: Layer) -> Layer
        requires count_bound { count ≤ 32 }
        requires by_index { (v : ℕ) → v < 64 → get_or self.now.needs v 0 < 2 ^ 32 }
        ensures { layer result.members result.words ≡ round_over 32 (listed_steps self.now.needs self.now.gives self.now.takes) (32 + count) (layer below.members below.words) }
    {
        let members = rounds::standing(&self.needs, count, below.members, &below.words);
        let words = rounds::words(self, &below.words, members);
        Layer { members, words }
    }

    // The fact layer over a round layer.
    pub fn facts_over(&self, below: Layer) -> Layer
        ensures { layer result.members result.words ≡ roomy 64 (facts_over 32 (listed_steps [] self.now.gives []) (layer below.members below.words)) }
    {
        facts_over(&self.gives, below)
    }
}

// What vertices need or give, from what steps do: a keeper has its own fact.
pub fn with_keepers(steps: &[u64; 64]) -> [u64; 64]
    ensures { result ≡ list_to 64 (vertex_words 32 true steps.now) }
{
    keepers::table(steps, true)
}

// What vertices take, from what steps do: a keeper takes nothing.
pub fn without_keepers(steps: &[u64; 64]) -> [u64; 64]
    ensures { result ≡ list_to 64 (vertex_words 32 false steps.now) }
{
    keepers::table(steps, false)
}

// The round layer over a fact layer, by what each vertex needs, gives and takes.
pub fn round_over(
    needs: &[u64; 64],
    gives: &[u64; 64],
    takes: &[u64; 64],
    count: usize,
    below: Layer,
) -> Layer
    requires count_bound { count ≤ 32 }
    requires by_index { (v : ℕ) → v < 64 → get_or needs.now v 0 < 2 ^ 32 }
    ensures { layer result.members result.words ≡ round_over 32 (listed_steps needs.now gives.now takes.now) (32 + count) (layer below.members below.words) }
{
    let vertices = Vertices {
        needs: *needs,
        gives: *gives,
        takes: *takes,
    };
    vertices.round_over(count, below)
}

// The fact layer over a round layer, by what each vertex gives.
pub fn facts_over(gives: &[u64; 64], below: Layer) -> Layer
    ensures { layer result.members result.words ≡ roomy 64 (facts_over 32 (listed_steps [] gives.now []) (layer below.members below.words)) }
{
    let members = word::gather(gives, below.members);
    let turned = table::transposed(gives);
    let words = facts::words(gives, &turned, &below.words, below.members, members);
    Layer { members, words }
}

// Fact layer k.
pub fn fact_layer(job: ReadFitting, k: usize) -> Layer
    requires { Sized 32 (fitting_in job) }
    ensures { layer result.members result.words ≡ roomy 64 (fact_layer 32 (fitting_in job) k) }
{
    let vertices = Vertices::of(job);
    let mut facts = Layer {
        members: job.start,
        words: [0; 64],
    };
    for _i in 0..k {
        facts = vertices.facts_over(vertices.round_over(job.steps, facts));
    }
    facts
}

// Round layer k.
pub fn round_layer(job: ReadFitting, k: usize) -> Layer
    requires { Sized 32 (fitting_in job) × (0 < k) }
    ensures { layer result.members result.words ≡ round_layer 32 (fitting_in job) k }
{
    Vertices::of(job).round_over(job.steps, fact_layer(job, k - 1))
}
