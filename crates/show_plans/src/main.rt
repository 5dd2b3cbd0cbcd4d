// Shows what the planner answers: the examples of the rules, jobs at their edges, and puzzles. Which of
// the shortest plans comes back is free. So a plan is tried by the rules, and its rounds are printed
// only if no other plan is as short. reference/plans.py prints the same text from a search of its
// own.
#![tactic(auto)]

ghost use Rattle.std.specs.Prelude.{◌≤◌};

use reading::Refusal;
use show_puzzles::Puzzle;
use show_trials::{Job, Step, rounds};
use std::io;

// Whether the words from one on are as they were, and the end of the line.
fn say_kept(rt: &impl Print, words: &[u32; 16], from: usize) -> io::Result<()> {
    let state: &[u8] = if show_trials::kept(words, from) {
        b" kept\n"
    } else {
        b" changed\n"
    };
    show_print::say(rt, state)
}

// Whether the first l words are the rounds of a plan.
fn say_holds(rt: &impl Print, job: Job, words: &[u32; 16], l: usize) -> io::Result<()> {
    let verdict = if rounds::plan_holds(job, words, l) {
        b" plan holds"
    } else {
        b" plan fails"
    };
    show_print::say(rt, verdict)
}

fn say_plan(rt: &impl Print, job: Job, words: &[u32; 16], l: usize) -> io::Result<()> {
    show_print::say_number(rt, b": rounds ", l as u64)?;
    show_print::say(rt, b",")?;
    say_holds(rt, job, words, l)?;
    show_print::say(rt, b", other words")?;
    say_kept(rt, words, l)
}

fn say_refusal(rt: &impl Print, refusal: Refusal, words: &[u32; 16]) -> io::Result<()> {
    show_print::say_number(rt, b": refused ", u32::from(refusal.reason) as u64)?;
    show_print::say_number(rt, b" at ", refusal.place as u64)?;
    show_print::say(rt, b", all words")?;
    say_kept(rt, words, 0)
}

fn say_round(rt: &impl Print, k: usize, round: u32) -> io::Result<()> {
    show_print::say_number(rt, b"", k as u64)?;
    show_print::say(rt, b":")?;
    show_print::members(rt, round as u64)?;
    show_print::say(rt, b"\n")
}

// The rounds, numbered from 1 on.
fn say_rounds(rt: &impl Print, words: &[u32; 16], l: usize) -> io::Result<()> {
    for (k, round) in words[..l.min(16)].iter().enumerate() {
        say_round(rt, k + 1, *round)?;
    }
    Ok(())
}

// What the planner answers if `lent` words are lent.
fn show_with(rt: &impl Print, label: &[u8], job: Job, lent: usize, in_full: bool) -> io::Result<()>
    requires { lent ≤ 16 }
{
    show_print::say(rt, label)?;
    let mut words = show_trials::marked();
    let answer = show_trials::ask(job, &mut words[..lent]);
    match answer {
        Ok(l) => {
            say_plan(rt, job, &words, l)?;
            if in_full {
                say_rounds(rt, &words, l)?;
            }
        }
        Err(refusal) => say_refusal(rt, refusal, &words)?,
    }
    Ok(())
}

fn show(rt: &impl Print, label: &[u8], job: Job) -> io::Result<()> {
    show_with(rt, label, job, 16, false)
}

// The steps of F, with a start and a goal.
fn like_f(horizon: u8, start: u64, goal: u64) -> Job {
    Job::bare(4, horizon, start, goal)
        .with(Step::new(1, 2, 1))
        .with(Step::new(2, 4, 0))
        .with(Step::new(2, 8, 0))
}

fn case_g() -> Job {
    Job::bare(2, 2, 0, 3)
        .with(Step::new(0, 1, 0))
        .with(Step::new(0, 2, 1))
}

fn cases(rt: &impl Print) -> io::Result<()> {
    show_with(rt, b"F", like_f(3, 1, 12), 16, true)?;
    show(rt, b"F with horizon 1", like_f(1, 1, 12))?;
    show(rt, b"F with horizon 2", like_f(2, 1, 12))?;
    show(rt, b"F with horizon 17", like_f(17, 1, 12))?;
    show_with(rt, b"F with 2 words", like_f(3, 1, 12), 2, false)?;
    show_with(rt, b"F with 3 words", like_f(3, 1, 12), 3, false)?;
    show_with(rt, b"G", case_g(), 16, true)
}

fn goals(rt: &impl Print) -> io::Result<()> {
    show(rt, b"goal within the start", like_f(3, 12, 8))?;
    show_with(
        rt,
        b"goal within the start, horizon 0",
        like_f(0, 12, 8),
        0,
        false,
    )?;
    show_with(
        rt,
        b"goal not within the start, horizon 0",
        like_f(0, 1, 12),
        0,
        false,
    )?;
    show(rt, b"empty goal", like_f(3, 1, 0))
}

fn lacks(rt: &impl Print) -> io::Result<()> {
    show(rt, b"no steps", Job::bare(4, 16, 3, 2))?;
    show(
        rt,
        b"no steps, goal not within the start",
        Job::bare(4, 16, 3, 6),
    )?;
    show_with(rt, b"nothing at all", Job::bare(0, 0, 0, 0), 0, false)?;
    let idle = Step::new(0, 0, 0);
    show(rt, b"a step of nothing", Job::bare(1, 16, 0, 1).with(idle))
}

// Two steps that need the same, and each give a fact of the goal and take the same.
fn pair(needs: u64, takes: u64) -> Job {
    Job::bare(3, 16, 4, 3)
        .with(Step::new(needs, 1, takes))
        .with(Step::new(needs, 2, takes))
}

fn pairs(rt: &impl Print) -> io::Result<()> {
    show(rt, b"two steps that take one fact", pair(0, 4))?;
    show(rt, b"two steps that need and take one fact", pair(4, 4))?;
    let back = Step::new(1, 3, 1);
    show(
        rt,
        b"a step that gives back what it takes",
        Job::bare(2, 16, 1, 3).with(back),
    )
}

fn rows(rt: &impl Print) -> io::Result<()> {
    let whole = Job::bare(17, 16, 1, 0x1_0000);
    show(
        rt,
        b"16 steps in a row",
        show_puzzles::stepped(whole, Puzzle::Row, 16),
    )?;
    let more = Job::bare(18, 16, 1, 0x2_0000);
    show(
        rt,
        b"17 steps in a row",
        show_puzzles::stepped(more, Puzzle::Row, 17),
    )
}

fn towers(rt: &impl Print) -> io::Result<()> {
    show(rt, b"tower of 3 discs", show_puzzles::tower(3, 16))?;
    show(rt, b"tower of 4 discs", show_puzzles::tower(4, 16))?;
    show(
        rt,
        b"tower of 4 discs, horizon 14",
        show_puzzles::tower(4, 14),
    )?;
    show(rt, b"tower of 5 discs", show_puzzles::tower(5, 16))
}

fn rings(rt: &impl Print) -> io::Result<()> {
    show(
        rt,
        b"4 rings, all off",
        show_puzzles::chinese(4, 0x55, 0xaa),
    )?;
    show(
        rt,
        b"4 rings, only the last on",
        show_puzzles::chinese(4, 0xaa, 0x6a),
    )?;
    show(
        rt,
        b"5 rings, all off",
        show_puzzles::chinese(5, 0x155, 0x2aa),
    )?;
    show(
        rt,
        b"16 rings, all off",
        show_puzzles::chinese(16, 0x5555_5555, 0xaaaa_aaaa),
    )
}

// Four robots on a ring of six places, or five on one of five: none passes another. Fact 6r + p, or
// 5r + p, says that robot r is at place p, and the last facts say which places are free.
fn robots(rt: &impl Print) -> io::Result<()> {
    let on_six = Job::bare(30, 16, 0x3020_4081, 0x81_0204);
    show(
        rt,
        b"4 robots, 2 places on",
        show_puzzles::stepped(on_six, Puzzle::Robots, 24),
    )?;
    let swap = Job::bare(30, 16, 0x3020_4081, 0x20_4042);
    show(
        rt,
        b"4 robots, 2 of them change places",
        show_puzzles::stepped(swap, Puzzle::Robots, 24),
    )?;
    let on_five = Job::bare(30, 16, 0x104_1041, 0x18_2082);
    show(
        rt,
        b"5 robots on a full ring, 1 place on",
        show_puzzles::stepped(on_five, Puzzle::Crowd, 25),
    )
}

// Lamps on two rings, all dark at first. Fact 2j says that lamp j is lit, and 2j + 1 that it is dark. Of
// the lit ones of a ring, half have even numbers.
fn lamps(rt: &impl Print) -> io::Result<()> {
    let some = Job::bare(32, 16, 0xaaaa_aaaa, 0xaaaa_aaaa ^ 0xc0_30c3);
    show(
        rt,
        b"16 lamps, 0 3 6 and 11 lit",
        show_puzzles::stepped(some, Puzzle::Lamps, 32),
    )?;
    let odd = Job::bare(32, 16, 0xaaaa_aaaa, 0xaaaa_aaaa ^ 0x3_30c3);
    show(
        rt,
        b"16 lamps, 0 3 6 and 8 lit",
        show_puzzles::stepped(odd, Puzzle::Lamps, 32),
    )
}

// Whether two rounds, or the first of them, are a plan: most of these are none.
fn judge(
    rt: &impl Print,
    label: &[u8],
    job: Job,
    first: u32,
    second: u32,
    l: usize,
) -> io::Result<()> {
    let mut words = show_trials::marked();
    words[0] = first;
    words[1] = second;
    show_print::say(rt, label)?;
    show_print::say(rt, b":")?;
    say_holds(rt, job, &words, l)?;
    show_print::say(rt, b"\n")
}

fn judged(rt: &impl Print) -> io::Result<()> {
    let f = like_f(3, 1, 12);
    judge(rt, b"F by 0, then 1 2", f, 1, 6, 2)?;
    judge(rt, b"F by 1 2, then 0", f, 6, 1, 2)?;
    judge(rt, b"F by 0 1 2", f, 7, 0, 1)?;
    judge(rt, b"F by 0, then 1", f, 1, 2, 2)?;
    judge(rt, b"F by 0", f, 1, 6, 1)?;
    judge(rt, b"F by 0 3, then 1 2", f, 9, 6, 2)?;
    judge(rt, b"F by no round", f, 1, 6, 0)?;
    let g = case_g();
    judge(rt, b"G by 1, then 0", g, 2, 1, 2)?;
    judge(rt, b"G by 0, then 1", g, 1, 2, 2)?;
    judge(rt, b"G by 0 1", g, 3, 0, 1)
}

fn main(rt: HostRuntime) -> io::Result<()> {
    judged(&rt)?;
    cases(&rt)?;
    goals(&rt)?;
    lacks(&rt)?;
    pairs(&rt)?;
    rows(&rt)?;
    towers(&rt)?;
    rings(&rt)?;
    robots(&rt)?;
    lamps(&rt)
}
