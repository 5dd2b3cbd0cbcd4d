// Plan extraction over round layers: from the goal back to the start, round by round.
#![tactic(auto)]

ghost use Rattle.std.specs.Prelude.{◌≡◌, ◌&&◌, ◌/◌, ◌^◌, ◌≤◌, eqb, length};
ghost use Rattle.sets.specs.Sets.{◌⊆◌};
ghost use Rattle.extraction.specs.Extraction.{all_facts, graph, Fine, Nogoods, Unreached, Extracted};

mod nogoods;

use sets::word;

// The set of all 32 facts.
pub const ALL_FACTS: u64 = 0xffff_ffff;

// The vertex of step 0: the vertices below it are the keepers of the facts.
const FIRST_STEP: usize = 32;

// A refuted set of this size or smaller is not made smaller.
const FEW: u32 = 3;

// The steps among the vertices of a selection, keepers left out.
fn steps_of(selection: u64) -> u32
    ensures { result ≡ selection / 2 ^ 32 }
{
    (selection >> FIRST_STEP) as u32
}

// Whether the box is the whole: what is refuted in it is refuted altogether.
fn whole(may: u64, must: u64) -> bool
    ensures { result ≡ (eqb may all_facts && eqb must 0) }
{
    may == ALL_FACTS && must == 0
}

// The facts that may still be dropped: of those left, those that are still refuted; none if `FEW` or
// fewer are refuted.
fn droppable(left: u64, refuted: u64) -> u64
    ensures { (result ⊆ left) × (result ⊆ refuted) }
{
    if word::count(refuted) <= FEW {
        return 0;
    }
    left & refuted
}

// A smaller explanation, by deletion: facts that j rounds do not reach are made fewer. `refuted` are
// these facts, and `before` is the place of the last nogood before they were refuted; the other
// arguments are those of `extract`.
//
// One fact after the other is left out, and `extract` is asked whether j rounds reach the others. If it
// refutes them, the facts by which it does are taken in their place. That ends with `FEW` facts or
// fewer, or once each of those left was tried. It pays only in a long search (`many`), and only if the
// facts are newly refuted: a nogood was stored since `before`. Otherwise `refuted` is the answer.
//
// What falls in the loop is the set of the facts that are still to be tried, as a number; the calls are
// for j rounds, one less than those of the caller. The answer is a part of `refuted` that j rounds do
// not reach.
#[cycle(dropped_extract)]
fn dropped(
    needs: &[u64; 64],
    gives: &[u64; 64],
    carriers: &[u64; 64],
    members: &[u64],
    words: &[u64],
    start: u64,
    plan: &mut [u32],
    table: &mut [u64],
    j: usize,
    refuted: u64,
    before: u64,
) -> u64
    requires fine { Fine (graph needs.now gives.now members.now words.now start) carriers.now × Nogoods (graph needs.now gives.now members.now words.now start) table.old }
    requires j_in_bounds { (j ≤ length members.now) × (j ≤ length plan.old) × Unreached (graph needs.now gives.now members.now words.now start) j all_facts refuted }
    ensures { (result ⊆ refuted) × Unreached (graph needs.now gives.now members.now words.now start) j all_facts result × Nogoods (graph needs.now gives.now members.now words.now start) table.new }
{
    if !nogoods::many(table, before) {
        return refuted;
    }
    let mut least = refuted;
    let mut left = droppable(refuted, refuted);
    while left != 0 {
        let b = word::lowest(left);
        let others = word::less(left, b);
        let inner = extract(
            needs,
            gives,
            carriers,
            members,
            words,
            start,
            plan,
            table,
            j,
            word::less(least, b),
            ALL_FACTS,
            0,
            0,
        );
        left = others;
        let Err(e) = inner else {
            continue;
        };
        least = e;
        left = droppable(others, e);
    }
    least
}

// Graphplan's backward extraction, with nogoods. `needs`, `gives` and `carriers` are the tables of the
// vertices, `members` and `words` the vertices and mutex words of each round layer, `start` has the
// facts at the start, `plan` gets the steps of each round, and `table` has the nogoods. `k` is how many
// rounds are left, and `goal` has the facts that are to hold after them. If a round is left and the box
// is the whole, a goal that includes a nogood is refuted at once, and what is refuted is stored.
//
// The needs of a selection of round layer k for the goal are the goal of the round before. If they are
// refuted there by facts c, every other selection either needs all of c and is refuted with it, or lacks
// one of them. So those that do not need the first fact of c are tried next, then those that need the
// first and not the second, and so on: a box has the selections whose needs lie in `may` and include
// `must`. `why` has the facts by which the boxes before this one were refuted.
//
// What falls is k, and for one k `may`, as a number. The answer is that a plan is made, in the words 0 to
// k - 1; or as the error the facts by which the goal is refuted: facts of the goal, with those of `why`,
// for which no selection in the box leads back to the start.
#[cycle(dropped_extract)]
pub fn extract(
    needs: &[u64; 64],
    gives: &[u64; 64],
    carriers: &[u64; 64],
    members: &[u64],
    words: &[u64],
    start: u64,
    plan: &mut [u32],
    table: &mut [u64],
    k: usize,
    goal: u64,
    may: u64,
    must: u64,
    why: u64,
) -> Result<(), u64>
    requires fine { Fine (graph needs.now gives.now members.now words.now start) carriers.now × Nogoods (graph needs.now gives.now members.now words.now start) table.old }
    requires k_in_bounds { (k ≤ length members.now) × (k ≤ length plan.old) × (goal ⊆ all_facts) × (may ⊆ all_facts) × (why ⊆ goal) }
    ensures { Extracted (graph needs.now gives.now members.now words.now start) k goal may must why plan.new result × Nogoods (graph needs.now gives.now members.now words.now start) table.new }
{
    if k == 0 {
        let lack = word::without(goal, start);
        if lack == 0 {
            return Ok(());
        }
        return Err(word::more(why, word::lowest(lack)));
    }
    let first = whole(may, must);
    let seen = nogoods::lookup(table, k, goal, first);
    if let Some(c) = seen {
        return Err(c | why);
    }
    let j = k - 1;
    let open = supports::open_to(needs, members[j], may);
    let picked = supports::ask(gives, carriers, words, j, open, goal);
    let Some(selection) = picked else {
        let e = supports::explain(gives, carriers, words, j, open, goal, why);
        nogoods::store(table, k, e, first);
        return Err(e);
    };
    let wanted = word::gather(needs, selection);
    let before = nogoods::stored(table);
    let below = extract(
        needs, gives, carriers, members, words, start, plan, table, j, wanted, ALL_FACTS, 0, 0,
    );
    let Err(refuted) = below else {
        plan[j] = steps_of(selection);
        return Ok(());
    };
    let c = dropped(
        needs, gives, carriers, members, words, start, plan, table, j, refuted, before,
    );
    let mut left = word::without(c, must);
    let mut kept = must;
    let mut reason = why;
    while left != 0 {
        let f = word::lowest(left);
        let turn = extract(
            needs,
            gives,
            carriers,
            members,
            words,
            start,
            plan,
            table,
            k,
            goal,
            word::less(may, f),
            kept,
            reason,
        );
        let Err(e) = turn else {
            return Ok(());
        };
        reason = e;
        kept = word::more(kept, f);
        left = word::less(left, f);
    }
    nogoods::store(table, k, reason, first);
    Err(reason)
}
