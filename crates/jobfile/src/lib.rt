// Job files: what a file states, or why it is refused and where.
//
// The formats are in specs/Layout.antt, as tables, and what reading gives is in specs/Read.antt.
#![tactic(auto)]

ghost use Rattle.std.specs.Prelude.{◌≡◌, ◌+◌, ◌≤◌, IfOk, eqb, length, get_or};
ghost use Rattle.reading.specs.Items.{spots};
ghost use Rattle.jobfile.specs.Read.{read, choices, fittings, either};
ghost use Rattle.jobfile.specs.Valid.{Bytes};
ghost use Rattle.jobfile.specs.Meaning.{choice_read, fitting_read, names_read, spot_of, spot_in, Few, ChoiceBounds, FittingBounds, NamesBounds};

pub mod records;

use reading::{Refusal, Spot, item};
use records::{FACT_BYTES, Kind, Records, WISH_BYTES};

// The kind of a choice file: its first byte.
pub const CHOICE: u8 = 67;

// The kind of a fitting file.
const FITTING: u8 = 70;

// The most articles of a choice.
const ARTICLES: u64 = 64;

// The most wishes of a choice.
const WISHES: u64 = 64;

// The most steps of a fitting.
const STEPS: u64 = 32;

// The most facts of a fitting.
const FACTS: u64 = 32;

// The longest horizon of a fitting.
const HORIZON: u64 = 16;

// The elements of an array: as many as there may be articles, for a fitting, too.
const ELEMENTS: usize = 64;

// A choice file as read. The arrays have an element for each article, and 0 after the last.
#[derive(Clone, Copy)]
pub struct ReadChoice {
    pub articles: usize,
    pub wish_count: usize,
    pub order: u64,
    pub wishes: [u64; 64],
    pub clashes: [u64; 64],
    pub prices: [u64; 64],
    pub starts: [usize; 64],
    pub lens: [usize; 64],
}

// A fitting file as read, likewise, with an element for each step.
#[derive(Clone, Copy)]
pub struct ReadFitting {
    pub steps: usize,
    pub facts: usize,
    pub horizon: usize,
    pub start: u64,
    pub goal: u64,
    pub needs: [u64; 64],
    pub gives: [u64; 64],
    pub takes: [u64; 64],
    pub starts: [usize; 64],
    pub lens: [usize; 64],
}

// The names of a file of either kind as read, likewise: how many articles or steps there are, and where
// the name of each is.
#[derive(Clone, Copy)]
pub struct ReadNames {
    pub count: usize,
    pub starts: [usize; 64],
    pub lens: [usize; 64],
}

// Reads a choice file. The names lie within it, and the counts and prices keep to their limits.
#[tactic(auto, unfolding(crate::specs::Layout::choice, crate::specs::Layout::kinds, crate::specs::Layout::layout_in, crate::specs::Read::layout_at, crate::specs::Read::body_at, crate::specs::Read::read, reading::specs::Got::each_at))]
pub fn read_choice(file: &[u8]) -> Result<ReadChoice, Refusal>
    ensures value { result ≡ choice_read (read spots choices file.now) }
    ensures choice_bounds { IfOk result (ChoiceBounds file.now) }
    ensures few { Few 64 (read spots choices file.now) }
{
    let at = item::kind(file, CHOICE)?;
    let articles = item::count(file, Ok(at), ARTICLES)?;
    let counted = item::count(file, Ok(articles.next), WISHES)?;
    let n = articles.value as usize;
    let w = counted.value as usize;
    let order = item::set(file, Ok(counted.next), WISH_BYTES, w)?;
    let Records {
        first: wishes,
        second: clashes,
        third: prices,
        starts,
        lens,
        next,
    } = records::read_records(file, Ok(order.next), Kind::Choice, w, n)?;
    item::finish(file, Ok(next))?;
    Ok(ReadChoice {
        articles: n,
        wish_count: w,
        order: order.value,
        wishes,
        clashes,
        prices,
        starts,
        lens,
    })
}

// Reads a fitting file, likewise.
#[tactic(auto, unfolding(crate::specs::Layout::choice, crate::specs::Layout::fitting, crate::specs::Layout::kinds, crate::specs::Layout::layout_in, crate::specs::Read::layout_at, crate::specs::Read::body_at, crate::specs::Read::read, reading::specs::Got::each_at))]
pub fn read_fitting(file: &[u8]) -> Result<ReadFitting, Refusal>
    ensures value { result ≡ fitting_read (read spots fittings file.now) }
    ensures fitting_bounds { IfOk result (FittingBounds file.now) }
    ensures few { Few 32 (read spots fittings file.now) }
    ensures bytes { Bytes file.now }
{
    let at = item::kind(file, FITTING)?;
    let steps = item::count(file, Ok(at), STEPS)?;
    let counted = item::count(file, Ok(steps.next), FACTS)?;
    let horizon = item::count(file, Ok(counted.next), HORIZON)?;
    let n = steps.value as usize;
    let facts = counted.value as usize;
    let start = item::set(file, Ok(horizon.next), FACT_BYTES, facts)?;
    let goal = item::set(file, Ok(start.next), FACT_BYTES, facts)?;
    let Records {
        first: needs,
        second: gives,
        third: takes,
        starts,
        lens,
        next,
    } = records::read_records(file, Ok(goal.next), Kind::Fitting, facts, n)?;
    item::finish(file, Ok(next))?;
    Ok(ReadFitting {
        steps: n,
        facts,
        horizon: horizon.value as usize,
        start: start.value,
        goal: goal.value,
        needs,
        gives,
        takes,
        starts,
        lens,
    })
}

// Whether the kind of a file is that of a fitting.
pub fn is_fitting(file: &[u8]) -> bool
    ensures { result ≡ eqb (get_or file.now 0 0) 70 }
{
    file.first() == Some(&FITTING)
}

// Reads the names of a file of either kind.
pub fn read_names(file: &[u8]) -> Result<ReadNames, Refusal>
    ensures value { result ≡ names_read (read spots either file.now) }
    ensures names_bounds { IfOk result (NamesBounds file.now) }
    ensures few { Few 64 (read spots either file.now) }
{
    if is_fitting(file) {
        let read = read_fitting(file)?;
        let starts = read.starts;
        let lens = read.lens;
        return Ok(ReadNames {
            count: read.steps,
            starts,
            lens,
        });
    }
    let read = read_choice(file)?;
    let starts = read.starts;
    let lens = read.lens;
    Ok(ReadNames {
        count: read.articles,
        starts,
        lens,
    })
}

// An element of the columns of names: none after their end.
fn spot_at(starts: [usize; 64], lens: [usize; 64], number: usize) -> Spot
    ensures { result ≡ spot_of starts lens number }
{
    if ELEMENTS <= number {
        return Spot { start: 0, len: 0 };
    }
    Spot {
        start: starts[number],
        len: lens[number],
    }
}

// Where the name of article or step `number` is, in a file of either kind.
pub fn spot(file: &[u8], number: usize) -> Spot
    ensures value { result ≡ spot_in (read spots either file.now) number }
    ensures len_in_bounds { result.start + result.len ≤ length file.now }
{
    match read_names(file) {
        Err(_) => Spot { start: 0, len: 0 },
        Ok(names) => spot_at(names.starts, names.lens, number),
    }
}
