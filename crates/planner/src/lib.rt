// The planner: the fewest rounds in which the goal of a fitting can be reached, and the rounds of such a
// plan.
#![tactic(auto)]

ghost use Rattle.std.specs.Prelude.{◌≡◌, ◌≤◌, length};
ghost use Rattle.planning.specs.Rounds.{fewest};
ghost use Rattle.planning.specs.Back.{Sized};
ghost use Rattle.planning.specs.Meaning.{fitting_in};
ghost use Rattle.planner.specs.Meaning.{planned_by};
ghost use Rattle.planner.specs.Planner.{Words};

mod search;
mod tabulated;

use jobfile::ReadFitting;

// The most rounds of a plan, and so the most round layers.
const HORIZON: usize = 16;

// A plan with the fewest rounds within the horizon: how many rounds it has, which are in the words in
// front; or that there is none, and nothing is written. Which of the shortest plans it is, is free.
pub fn plan(job: ReadFitting, out: &mut [u32]) -> Option<usize>
    requires { Sized 32 (fitting_in job) × (job.horizon ≤ 16) × (job.horizon ≤ length out.old) }
    ensures value { result ≡ planned_by (fewest (fitting_in job) job.horizon) }
    ensures words { Words (fitting_in job) out.old out.new result }
{
    let layers = tabulated::round_layers(job);
    search::shortest(job, &layers.members[..job.horizon], &layers.words, out)
}
