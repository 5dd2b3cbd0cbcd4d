// The table of nogoods, Graphplan's memoized goals: sets of facts that a count of rounds does not reach.
//
// Entry 0 is the place of the last nogood, and 0 if there is none. The entries from 1 on are a ring: the
// place after the last entry is 1 again, so that a full table loses its oldest nogood. An entry is a
// count of rounds times 2^32, plus a set of facts: no plan of that many rounds reaches them all. Then
// none of fewer rounds does, and none reaches a set that has all of these facts. An entry of 0 is free.
//
// What the table forgets costs time and changes no answer.
ghost use Rattle.std.specs.Prelude.{◌^◌, ◌≤◌, ◌<◌};
ghost use Rattle.extraction.specs.Extraction.{Noted, StoredIf};

use sets::word;

// A search counts as long while its last nogood is at this place of the table or after it.
const MANY: u64 = 1024;

// An entry is a count of rounds times this, plus a set of facts.
const ROUND: u64 = 0x1_0000_0000;

// The place of the last nogood; 0 if there is none.
pub fn stored(table: &[u64]) -> u64 {
    table.first().copied().unwrap_or(0)
}

// Whether the place of the last nogood is another than `before`, and is `MANY` or after it: then the
// search is long, and it pays to make what is stored stronger. A place is no count of what was stored:
// after each lap of the ring the answer is false until the place is `MANY` again. With a count, the
// searches of the bench that fill the ring take more nodes (docs/PERFORMANCE.md).
pub fn many(table: &[u64], before: u64) -> bool {
    let last = stored(table);
    last != before && MANY <= last
}

// The first nogood for k rounds or more whose facts are all among these. Nothing is looked up if `on`
// is false.
pub fn lookup(table: &[u64], k: usize, facts: u64, on: bool) -> Option<u64>
    ensures { Noted table.now k facts result }
{
    if !on {
        return None;
    }
    for i in 1..table.len() {
        let word = table[i];
        if word == 0 {
            return None;
        }
        let r = (word / ROUND) as usize;
        if k <= r {
            let c = word % ROUND;
            if word::without(c, facts) == 0 {
                return Some(c);
            }
        }
    }
    None
}

// The place after the last, from 1 to n - 1 and from the front again.
fn next_place(last: u64, n: usize) -> usize
    requires { 2 ≤ n }
    ensures { (0 < result) × (result < n) }
{
    if last < (n as u64) - 1 {
        return (last as usize) + 1;
    }
    1
}

// Enters that k rounds do not reach these facts, over the oldest entry if the table is full. Nothing is
// entered if `on` is false.
pub fn store(table: &mut [u64], k: usize, facts: u64, on: bool)
    requires { (k ≤ 16) × (facts < 2 ^ 32) }
    ensures { StoredIf on k facts table.old table.new }
{
    if !on {
        return;
    }
    let n = table.len();
    if n < 2 {
        return;
    }
    let last = table[0];
    let at = next_place(last, n);
    table[0] = at as u64;
    table[at] = (k as u64) * ROUND + facts;
}
