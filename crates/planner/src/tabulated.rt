// The round layers of a fitting up to its horizon, in flat tables.
ghost use Rattle.std.specs.Prelude.{◌≡◌, ◌+◌, ◌*◌, ◌≤◌, ◌<◌, length};
ghost use Rattle.std.proofs.Math.Seq.{paste};
ghost use Rattle.planning.specs.Back.{Sized};
ghost use Rattle.planning.specs.Meaning.{fitting_in};
ghost use Rattle.planner.specs.Tabulated.{Laid};

use crate::HORIZON;
use jobfile::ReadFitting;
use layers::{Layer, Vertices};
use supports::ROW;

// The mutex words of all round layers.
const WORDS: usize = ROW * HORIZON;

// The vertices of each round layer, and its mutex words.
#[derive(Clone, Copy)]
pub struct RoundLayers {
    pub members: [u64; HORIZON],
    pub words: [u64; WORDS],
}

// Puts the words of round layer j + 1 in their place.
fn put(words: &mut [u64], j: usize, row: &[u64; 64])
    requires { (j < 16) × (64 * j + 64 ≤ length words.old) }
    ensures { words.new ≡ paste words.old (64 * j) row.now 64 }
{
    words[ROW * j..ROW * j + ROW].copy_from_slice(row);
}

// The round layers 1 to the horizon.
pub fn round_layers(job: ReadFitting) -> RoundLayers
    requires { Sized 32 (fitting_in job) × (job.horizon ≤ 16) }
    ensures { Laid (fitting_in job) job.horizon result.members result.words }
{
    // These two come first: further down, compiled code sets the words to zero twice.
    let mut members: [u64; HORIZON] = [0; HORIZON];
    let mut words: [u64; WORDS] = [0; WORDS];
    let vertices = Vertices::of(job);
    let mut facts = Layer {
        members: job.start,
        words: [0; 64],
    };
    for j in 0..job.horizon {
        let round = vertices.round_over(job.steps, facts);
        members[j] = round.members;
        put(&mut words, j, &round.words);
        facts = vertices.facts_over(round);
    }
    RoundLayers { members, words }
}
