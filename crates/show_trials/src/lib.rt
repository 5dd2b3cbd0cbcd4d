// Fittings that a program makes up: the job and its file, what the planner answers to it, and whether
// that is right.
#![tactic(auto)]

mod file;
pub mod rounds;

use reading::Refusal;

// What every word holds that is not written.
const MARK: u32 = 7;

// The most steps of a fitting.
const STEPS: u8 = 32;

// The words of a buffer: one for each round of the longest horizon.
pub const WORDS: usize = 16;

// What a step needs, gives and takes.
#[derive(Clone, Copy)]
pub struct Step {
    pub needs: u64,
    pub gives: u64,
    pub takes: u64,
}

impl Step {
    pub fn new(needs: u64, gives: u64, takes: u64) -> Step {
        Step {
            needs,
            gives,
            takes,
        }
    }
}

// A fitting. The arrays have an element for each step, and 0 after the last.
#[derive(Clone, Copy)]
pub struct Job {
    pub steps: u8,
    pub facts: u8,
    pub horizon: u8,
    pub start: u64,
    pub goal: u64,
    pub needs: [u64; 64],
    pub gives: [u64; 64],
    pub takes: [u64; 64],
}

impl Job {
    // A job without steps.
    pub fn bare(facts: u8, horizon: u8, start: u64, goal: u64) -> Job {
        Job {
            steps: 0,
            facts,
            horizon,
            start,
            goal,
            needs: [0; 64],
            gives: [0; 64],
            takes: [0; 64],
        }
    }

    // The job with one step more; the 33rd is left out.
    pub fn with(self, step: Step) -> Job {
        if STEPS <= self.steps {
            return self;
        }
        let i = usize::from(self.steps);
        let mut job = self;
        job.steps += 1;
        job.needs[i] = step.needs;
        job.gives[i] = step.gives;
        job.takes[i] = step.takes;
        job
    }
}

// What the planner answers to the file of a job.
pub fn ask(job: Job, words: &mut [u32]) -> Result<usize, Refusal> {
    let file = file::written(job);
    calls::plan(&file.bytes[..file.len], words)
}

// Words that hold the mark.
pub fn marked() -> [u32; WORDS] {
    [MARK; WORDS]
}

// Whether the words from one on hold the mark.
pub fn kept(words: &[u32; WORDS], from: usize) -> bool {
    words.iter().skip(from).all(|word| *word == MARK)
}
