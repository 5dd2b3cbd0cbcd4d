// Whether rounds are a plan, by the rules alone.
ghost use Rattle.std.specs.Prelude.{◌<◌};

use crate::{Job, WORDS};
use sets::word;

// Whether step a takes nothing that other steps of the round need or give.
fn harmless(needs: &[u64; 64], gives: &[u64; 64], takes: &[u64; 64], round: u64, a: usize) -> bool
    requires { a < 64 }
{
    let others = word::less(round, a);
    let used = word::gather(needs, others) | word::gather(gives, others);
    takes[a] & used == 0
}

// Whether no two steps of the round disturb each other.
fn undisturbed(needs: &[u64; 64], gives: &[u64; 64], takes: &[u64; 64], round: u64) -> bool {
    let mut left = round;
    while left != 0 {
        let a = word::lowest(left);
        if !harmless(needs, gives, takes, round, a) {
            return false;
        }
        left = word::rest(left);
    }
    true
}

// Whether the round has only steps of the job, and may follow on the facts.
fn may_follow(job: Job, round: u64, facts: u64) -> bool {
    if (round >> (job.steps % 64)) != 0 {
        return false;
    }
    if word::without(word::gather(&job.needs, round), facts) != 0 {
        return false;
    }
    undisturbed(&job.needs, &job.gives, &job.takes, round)
}

// The facts after a round.
fn facts_after(job: Job, round: u64, facts: u64) -> u64 {
    word::without(facts, word::gather(&job.takes, round)) | word::gather(&job.gives, round)
}

// Whether the first l words are the rounds of a plan within the horizon.
pub fn plan_holds(job: Job, words: &[u32; WORDS], l: usize) -> bool {
    if WORDS < l || usize::from(job.horizon) < l {
        return false;
    }
    let mut facts = job.start;
    for word in &words[..l] {
        let round = u64::from(*word);
        if !may_follow(job, round, facts) {
            return false;
        }
        facts = facts_after(job, round, facts);
    }
    word::without(job.goal, facts) == 0
}
