// The search over the count of rounds.
ghost use Rattle.std.specs.Prelude.{◌≡◌, ◌≤◌, length};
ghost use Rattle.planning.specs.Rounds.{fewest};
ghost use Rattle.planning.specs.Back.{Sized};
ghost use Rattle.planning.specs.Meaning.{fitting_in};
ghost use Rattle.reachability.specs.States.{Hopeless};
ghost use Rattle.planner.specs.Meaning.{planned_by};
ghost use Rattle.planner.specs.Planner.{Words};
ghost use Rattle.planner.specs.Tabulated.{Layered};

use crate::HORIZON;
use extraction::ALL_FACTS;
use jobfile::ReadFitting;
use layers::Vertices;
use sets::table;

// The words of the table of nogoods: the place of the last one, and 8,191 nogoods.
const TABLE: usize = 8192;

// As the place of the last nogood passes this one, the states are listed.
const LONG: u64 = 64;

// Whether no plan of any length exists. It is asked after a count of rounds in which the place of the
// last nogood, `before` and then `stored`, has passed `LONG`: the search is long, and the states may be
// few. `false` says nothing.
fn stuck(job: ReadFitting, before: u64, stored: u64) -> bool
    requires { job.steps ≤ 64 }
    ensures { Hopeless (fitting_in job) result }
{
    before < LONG && LONG <= stored && reachability::hopeless(job)
}

// A plan with the fewest rounds, over the members and words of the round layers: extraction for 0, 1, 2
// rounds and so on, up to as many as there are layers. The nogoods of one count serve the next ones. The
// rounds are made in words of our own, since a call that finds no plan writes nothing.
pub fn shortest(job: ReadFitting, members: &[u64], words: &[u64], out: &mut [u32]) -> Option<usize>
    requires { Sized 32 (fitting_in job) × (job.horizon ≤ 16) × (job.horizon ≤ length out.old) × Layered (fitting_in job) job.horizon members.now words.now }
    ensures value { result ≡ planned_by (fewest (fitting_in job) job.horizon) }
    ensures words { Words (fitting_in job) out.old out.new result }
{
    // These two come first: further down, compiled code sets the table to zero twice.
    let mut made: [u32; HORIZON] = [0; HORIZON];
    let mut table: [u64; TABLE] = [0; TABLE];
    let vertices = Vertices::of(job);
    let carriers = table::transposed(&vertices.gives);
    for k in 0..members.len() + 1 {
        let before = table[0];
        let outcome = extraction::extract(
            &vertices.needs,
            &vertices.gives,
            &carriers,
            members,
            words,
            job.start,
            &mut made,
            &mut table,
            k,
            job.goal,
            ALL_FACTS,
            0,
            0,
        );
        let Err(_facts) = outcome else {
            out[..k].copy_from_slice(&made[..k]);
            return Some(k);
        };
        let stored = table[0];
        if stuck(job, before, stored) {
            return None;
        }
    }
    None
}
