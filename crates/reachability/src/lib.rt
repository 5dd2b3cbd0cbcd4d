// Steps lead to states, which are sets of facts. What none of these states holds, no plan reaches. The
// states are listed one after the other, each with what its steps lead to, as long as there is room.
#![tactic(auto)]

ghost use Rattle.std.specs.Prelude.{◌≡◌, ◌≤◌, ◌<◌, length};
ghost use Rattle.std.specs.Int.Bits.{bit_or};
ghost use Rattle.sets.specs.Sets.{without};
ghost use Rattle.planning.specs.Rounds.{listed_steps};
ghost use Rattle.planning.specs.Meaning.{fitting_in};
ghost use Rattle.reachability.specs.States.{Hopeless, Placed, Entered, Tried, Expanded};

use jobfile::ReadFitting;
use sets::word;

// The most states that are listed.
const STATES: usize = 8192;

// The slots of the hash table by which a state is found in the list: four for each listed state.
const SLOTS: usize = 32768;

// The most slots that are looked at for one state.
const PROBES: usize = 16;

// There are this many sets of 32 facts; a slot is made from the facts of a state alone.
const FACT_SETS: u64 = 0x1_0000_0000;

// The slot is made from the product with this prime, which is near 2^32 divided by the golden ratio:
// states whose numbers are close together get slots that are far apart.
const MULTIPLIER: u64 = 0x9e37_79b1;

// Of the product, the bits from this one on tell the slot; those below it depend on fewer facts.
const LOWEST: u64 = 0x100_0000;

// What the table of slots says of a state: it is listed, it may be entered at a slot, or there is no
// free slot near by.
#[derive(Clone, Copy)]
enum Place {
    Known,
    Free(usize),
    Crowded,
}

// The facts after a step.
fn after_step(facts: u64, gives: u64, takes: u64) -> u64
    ensures { result ≡ bit_or (without facts takes) gives }
{
    word::without(facts, takes) | gives
}

// The slot at which the search for a state begins.
fn slot_of(state: u64) -> usize
    ensures { result < 32768 }
{
    let mixed = (state % FACT_SETS) * MULTIPLIER;
    (mixed / LOWEST % (SLOTS as u64)) as usize
}

// The slot after this one, the first after the last.
fn next_slot(at: usize) -> usize
    requires { at < 32768 }
    ensures { result < 32768 }
{
    (at + 1) % SLOTS
}

// Looks at `PROBES` slots, from the one that `slot_of` gives on. A slot has the number of a state,
// counted from 1, and 0 if it is free; what it says is believed only if that state is the one looked
// for.
fn look_up(states: &[u64], slots: &[u16], count: usize, state: u64) -> Place
    requires { (count ≤ length states.now) × (length slots.now ≡ 32768) }
    ensures { Placed states.now (length slots.now) count state result }
{
    let mut at = slot_of(state);
    for _ in 0..PROBES {
        let number = usize::from(slots[at]);
        if number == 0 {
            return Place::Free(at);
        }
        if number <= count && states[number - 1] == state {
            return Place::Known;
        }
        at = next_slot(at);
    }
    Place::Crowded
}

// Enters a state into the list unless it is there. The answer is how many there are now, or `None` if
// there is no room.
fn insert(states: &mut [u64], slots: &mut [u16], count: usize, state: u64) -> Option<usize>
    requires { (count ≤ length states.old) × (length states.old ≡ 8192) × (length slots.old ≡ 32768) }
    ensures { Entered states.old states.new count state result }
{
    let place = look_up(states, slots, count, state);
    match place {
        Place::Known => Some(count),
        Place::Free(at) => {
            if count == STATES {
                return None;
            }
            states[count] = state;
            slots[at] = (count + 1) as u16;
            Some(count + 1)
        }
        Place::Crowded => None,
    }
}

// Enters what a step leads to, if all that it needs is there.
fn try_step(
    states: &mut [u64],
    slots: &mut [u16],
    count: usize,
    facts: u64,
    needs: u64,
    gives: u64,
    takes: u64,
) -> Option<usize>
    requires { (count ≤ length states.old) × (length states.old ≡ 8192) × (length slots.old ≡ 32768) }
    ensures { Tried states.old states.new count facts needs gives takes result }
{
    if word::without(needs, facts) != 0 {
        return Some(count);
    }
    insert(states, slots, count, after_step(facts, gives, takes))
}

// Enters all that steps lead to from state i.
fn expand(
    states: &mut [u64],
    slots: &mut [u16],
    count: usize,
    i: usize,
    job: &ReadFitting,
) -> Option<usize>
    requires count_in_bounds { (count ≤ length states.old) × (length states.old ≡ 8192) × (length slots.old ≡ 32768) }
    requires i_lt_count { (i < count) × (job.now.steps ≤ 64) }
    ensures { Expanded states.old states.new count i (listed_steps job.now.needs job.now.gives job.now.takes) job.now.steps result }
{
    let facts = states[i];
    let mut n = count;
    for a in 0..job.steps {
        n = try_step(
            states,
            slots,
            n,
            facts,
            job.needs[a],
            job.gives[a],
            job.takes[a],
        )?;
    }
    Some(n)
}

// Unsolvable by reachability: whether the states that single steps lead to show that `job` has no plan.
//
// These states are listed breadth first, from the start on: state i is tried for the goal, and then
// what each step that can be made in it leads to is put at the end of the list, unless it is there. The
// steps of a round can be made one after the other, so that single steps reach what rounds reach.
//
// What falls is the count of the states that could still have their turn, `STATES` - i. `true` says that
// the list has an end and that no state of it has the goal: then no plan of any length exists. `false`
// says nothing: a state has the goal, or there was no room for one. So this can end a search early that
// would find no plan, and changes no answer.
pub fn hopeless(job: ReadFitting) -> bool
    requires { job.steps ≤ 64 }
    ensures { Hopeless (fitting_in job) result }
{
    let mut states: [u64; STATES] = [0; STATES];
    let mut slots: [u16; SLOTS] = [0; SLOTS];
    let Some(mut count) = insert(&mut states, &mut slots, 0, job.start) else {
        return false;
    };
    let mut i: usize = 0;
    while i < count {
        if word::without(job.goal, states[i]) == 0 {
            return false;
        }
        let Some(grown) = expand(&mut states, &mut slots, count, i, &job) else {
            return false;
        };
        count = grown;
        i += 1;
    }
    true
}
