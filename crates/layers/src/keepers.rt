// Tables of steps as tables of vertices.
ghost use Rattle.std.specs.Prelude.{◌≡◌, ◌<◌};
ghost use Rattle.sets.specs.Ranges.{list_to};
ghost use Rattle.layers.specs.Meaning.{vertex_words};

use crate::{FACTS, VERTICES};
use sets::word;

// What vertex x has: a keeper its own fact, or nothing; a step its word.
fn entry(steps: &[u64; 64], kept: bool, x: usize) -> u64
    requires { x < 64 }
    ensures { result ≡ vertex_words 32 kept steps.now x }
{
    if x < FACTS {
        return word::more_if(0, x, kept);
    }
    steps[x - FACTS]
}

pub fn table(steps: &[u64; 64], kept: bool) -> [u64; 64]
    ensures { result ≡ list_to 64 (vertex_words 32 kept steps.now) }
{
    let mut words: [u64; 64] = [0; 64];
    for x in 0..VERTICES {
        words[x] = entry(steps, kept, x);
    }
    words
}
