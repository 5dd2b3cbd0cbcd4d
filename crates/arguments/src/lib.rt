// What a caller lends: the tests of the arguments, reasons 9 to 13, and the writing of mutex words into
// a buffer.
#![tactic(auto)]

ghost use Rattle.std.specs.Prelude.{◌≡◌, not, ◌||◌, ◌≤◌, ltb};
ghost use Rattle.arguments.specs.Tests.{article_test, room_test, layer_test, groups_test, pass_test, goals_test};
ghost use Rattle.arguments.specs.Meaning.{verdict_of, network_in};

pub mod written;

use filter::goals;
use jobfile::ReadChoice;
use network::lent;
use reading::{Reason, Refusal};

// Whether there is an article of this number.
pub fn article(article: usize, articles: usize) -> Result<(), Refusal>
    ensures { result ≡ verdict_of (article_test article articles) }
{
    if articles <= article {
        return Err(Reason::OutOfRange.at(0));
    }
    Ok(())
}

// Whether a buffer of this length has at least `size` elements.
pub fn room(len: usize, size: usize) -> Result<(), Refusal>
    ensures { result ≡ verdict_of (room_test len size) }
{
    if len < size {
        return Err(Reason::ShortBuffer.at(0));
    }
    Ok(())
}

// Whether a layer's number is in its range.
fn in_range(k: usize, lowest: usize, highest: usize) -> bool
    ensures { result ≡ not (ltb k lowest || ltb highest k) }
{
    if k < lowest {
        return false;
    }
    k <= highest
}

// Whether a layer's number is in its range and a buffer of this length has room for its words.
pub fn layer(
    k: usize,
    lowest: usize,
    highest: usize,
    len: usize,
    size: usize,
) -> Result<(), Refusal>
    ensures { result ≡ verdict_of (layer_test k lowest highest len size) }
{
    if !in_range(k, lowest, highest) {
        return Err(Reason::OutOfRange.at(0));
    }
    if len < size {
        return Err(Reason::ShortBuffer.at(0));
    }
    Ok(())
}

// Whether groups lent to a choice have a byte for each article and are a partition.
pub fn groups(job: ReadChoice, groups: &[u8]) -> Result<(), Refusal>
    requires { job.articles ≤ 64 }
    ensures { result ≡ verdict_of (groups_test (network_in job) groups.now) }
{
    let n = job.articles;
    if groups.len() < n {
        return Err(Reason::ShortBuffer.at(0));
    }
    let clashes = job.clashes;
    let partition = lent::first_misplaced(&clashes, groups, n);
    match partition {
        Some(u) => Err(Reason::FalsePartition.at(u)),
        None => Ok(()),
    }
}

// Whether a pass is lent a live set of the file's articles and a goal that is in order.
pub fn live_and_goal(articles: usize, order: u64, live: u64, goal: u64) -> Result<(), Refusal>
    ensures { result ≡ verdict_of (pass_test articles order live goal) }
{
    if goals::outside(live, articles) {
        return Err(Reason::LiveOutsideFile.at(0));
    }
    if goals::bad_goal(order, goal) {
        return Err(Reason::BadGoal.at(0));
    }
    Ok(())
}

// Whether all goals of a list are in order.
pub fn goals(order: u64, goals: &[u64]) -> Result<(), Refusal>
    ensures { result ≡ verdict_of (goals_test order goals.now) }
{
    let tested = goals::first_bad(order, goals);
    match tested {
        Some(i) => Err(Reason::BadGoal.at(i)),
        None => Ok(()),
    }
}
