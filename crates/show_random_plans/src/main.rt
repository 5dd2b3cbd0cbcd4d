// Shows how many rounds the planner answers for 300 small drawn jobs, and how often it answers each
// count. reference/random_plans.py prints the same text by trying every round.
#![tactic(auto)]

ghost use Rattle.std.specs.Prelude.{◌<◌};

use reading::Refusal;
use sets::word;
use show_trials::{Job, Step, WORDS, rounds};
use std::io;

// How many jobs are drawn.
const JOBS: usize = 300;

// The counts of rounds that a plan may have: 0 to 5.
const COUNTS: usize = 6;

// How many jobs were answered with a plan, by its count of rounds, and how many were refused.
#[derive(Drop)]
struct Tally {
    planned: [u64; COUNTS],
    refused: u64,
}

// A step, and where the generator is after it.
#[derive(Clone, Copy)]
struct DrawnStep {
    step: Step,
    x: u64,
}

// A job, and where the generator is after it.
#[derive(Clone, Copy)]
struct DrawnJob {
    job: Job,
    x: u64,
}

// The fact after this one; the first comes after the last.
fn next(fact: u64, facts: u64) -> u64
    requires { (fact < facts) × (facts < 8) }
    ensures { result < facts }
{
    if fact + 1 < facts {
        return fact + 1;
    }
    0
}

// A step that leads from a fact to the next. It may need one fact up to the first of these, may give one
// more, and takes up to two.
fn drawn_step(seed: u64, fact: u64, facts: u64) -> DrawnStep
    requires { (fact < facts) × (facts < 8) }
{
    let needs = show_draws::some(seed, 0, 2, fact + 1);
    let gives = show_draws::some(needs.x, 0, 2, facts);
    let takes = show_draws::some(gives.x, 0, 3, facts);
    DrawnStep {
        step: Step::new(
            needs.set | word::unit(fact as usize),
            gives.set | word::unit(next(fact, facts) as usize),
            takes.set,
        ),
        x: takes.x,
    }
}

// The job with `steps` drawn steps, from fact 0 on.
fn with_steps(bare: Job, seed: u64, steps: u64, facts: u64) -> DrawnJob
    requires { (0 < facts) × (facts < 8) }
{
    let mut job = bare;
    let mut x = seed;
    let mut fact: u64 = 0;
    for _ in 0..steps {
        let more = drawn_step(x, fact, facts);
        job = job.with(more.step);
        x = more.x;
        fact = next(fact, facts);
    }
    DrawnJob { job, x }
}

// 4 to 6 steps, 5 to 7 facts, a horizon of 1 to 5. Fact 0 holds first, and up to three are the goal.
fn drawn_job(seed: u64) -> DrawnJob {
    let a = show_draws::after(seed);
    let b = show_draws::after(a);
    let c = show_draws::after(b);
    let facts = 5 + show_draws::below(b, 3);
    let horizon = 1 + show_draws::below(c, 5);
    let goal = show_draws::some(c, 1, 3, facts);
    let bare = Job::bare(facts as u8, horizon as u8, 1, goal.set);
    with_steps(bare, goal.x, 4 + show_draws::below(a, 3), facts)
}

// One more job with a plan of `l` rounds.
fn add(planned: &mut [u64; COUNTS], l: usize) {
    if let Some(jobs) = planned.get_mut(l) {
        *jobs = jobs.wrapping_add(1);
    }
}

fn say_kept(rt: &impl Print, words: &[u32; WORDS], from: usize) -> io::Result<()> {
    if !show_trials::kept(words, from) {
        show_print::say(rt, b" changes other words")?;
    }
    show_print::say(rt, b"\n")
}

fn say_plan(rt: &impl Print, job: Job, words: &[u32; WORDS], l: usize) -> io::Result<()> {
    show_print::say_number(rt, b": ", l as u64)?;
    let verdict = if rounds::plan_holds(job, words, l) {
        b" holds"
    } else {
        b" fails"
    };
    show_print::say(rt, verdict)?;
    say_kept(rt, words, l)
}

fn say_refusal(rt: &impl Print, refusal: Refusal, words: &[u32; WORDS]) -> io::Result<()> {
    show_print::say_number(rt, b": ", u32::from(refusal.reason) as u64)?;
    say_kept(rt, words, 0)
}

fn show(rt: &impl Print, number: usize, job: Job, tally: &mut Tally) -> io::Result<()> {
    show_print::say_number(rt, b"", number as u64)?;
    let mut words = show_trials::marked();
    let answer = show_trials::ask(job, &mut words);
    match answer {
        Ok(l) => {
            say_plan(rt, job, &words, l)?;
            add(&mut tally.planned, l);
        }
        Err(refusal) => {
            say_refusal(rt, refusal, &words)?;
            tally.refused = tally.refused.wrapping_add(1);
        }
    }
    Ok(())
}

fn totals(rt: &impl Print, tally: &Tally) -> io::Result<()> {
    show_print::say(rt, b"rounds 0 to 5:")?;
    for jobs in &tally.planned {
        show_print::say_number(rt, b" ", *jobs)?;
    }
    show_print::say_number(rt, b", refused: ", tally.refused)?;
    show_print::say(rt, b"\n")
}

fn main(rt: HostRuntime) -> io::Result<()> {
    let mut tally = Tally {
        planned: [0; COUNTS],
        refused: 0,
    };
    let mut x: u64 = 88172645463325252;
    for number in 0..JOBS {
        let made = drawn_job(x);
        show(&rt, number, made.job, &mut tally)?;
        x = made.x;
    }
    totals(&rt, &tally)
}
