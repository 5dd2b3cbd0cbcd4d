// What a caller lends to a pass beside the groups: the live set, for reason 12, and projection goals,
// for reason 13.
ghost use Rattle.std.specs.Prelude.{◌≡◌};
ghost use Rattle.filter.specs.Filter.{outside, bad_goal, first_bad};
ghost use Rattle.filter.specs.Meaning.{goals_by};

use sets::word;

// Whether the live set has an article that the file lacks.
pub fn outside(live: u64, n: usize) -> bool
    ensures { result ≡ outside n live }
{
    word::exceeds(live, n)
}

// Whether a goal is empty or not within the order.
pub fn bad_goal(order: u64, goal: u64) -> bool
    ensures { result ≡ bad_goal order goal }
{
    if goal == 0 {
        return true;
    }
    word::without(goal, order) != 0
}

// The first goal of a list that is empty or not within the order, if any is.
pub fn first_bad(order: u64, goals: &[u64]) -> Option<usize>
    ensures { result ≡ goals_by (first_bad order goals.now) }
{
    // The place has a name, so that a wrong one is refused by its number.
    let place = goals.iter().position(|goal| bad_goal(order, *goal))?;
    Some(place)
}
