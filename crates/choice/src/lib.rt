// The choice over a mutex network: the smallest selection at or above a floor, with what the filter
// set aside.
#![tactic(auto)]

ghost use Rattle.std.specs.Prelude.{◌≡◌, [], ℕ, ◌≤◌, ◌<◌, length, get_or};
ghost use Rattle.reading.specs.declared.Reason.TheVariants.{NoSelection as no_selection};
ghost use Rattle.network.specs.Network.{listed};
ghost use Rattle.network.specs.Groups.{Partition};
ghost use Rattle.filter.specs.Filter.{GoalsWithin};
ghost use Rattle.network.specs.Tables.{Tabled};
ghost use Rattle.choice.specs.Choice.{smallest, chosen, unaided, offered};
ghost use Rattle.choice.specs.Meaning.{found_by, is_some};
ghost use Rattle.choice.specs.Search.{Filtered};

pub mod find;
mod least;
pub mod tabled;

use filter::passes;
use jobfile::ReadChoice;
use network::{partition, tables};
use reading::{Reason, Refusal};
use sets::{ArticleSet, table};

// A selection, with what the filter set aside.
#[derive(Clone, Copy)]
pub struct Chosen {
    pub selection: u64,
    pub aside: u64,
}

// That there is no selection, with the place of 14: the index of the first goal that falls short, the
// length of the list if none does.
#[derive(Clone, Copy)]
pub struct NoSelection {
    pub place: usize,
}

impl From<NoSelection> for Refusal {
    ghost from_gives = { λ none refusal. refusal ≡ record { reason = no_selection; place = none.place } };

    fn from(none: NoSelection) -> Refusal {
        Reason::NoSelection.at(none.place)
    }
}

// The smallest set of allowed articles, no two of which clash, that covers the need and whose number
// is at or above the floor. The tables are those of the network.
pub fn smallest(
    wishes: &[u64; 64],
    clashes: &[u64; 64],
    carriers: &[u64; 64],
    allowed: u64,
    need: u64,
    floor: u64,
) -> Option<u64>
    requires { Tabled 64 wishes.now clashes.now carriers.now }
    ensures { result ≡ found_by (smallest (listed 64 wishes.now clashes.now) allowed need floor) }
{
    least::seek(
        wishes,
        clashes,
        carriers,
        allowed,
        need,
        floor,
        ArticleSet::CAPACITY,
        None,
    )
}

// Whether there is any such set, without a floor.
pub fn coverable(
    wishes: &[u64; 64],
    clashes: &[u64; 64],
    carriers: &[u64; 64],
    allowed: u64,
    need: u64,
) -> bool
    requires { Tabled 64 wishes.now clashes.now carriers.now }
    ensures { result ≡ is_some (smallest (listed 64 wishes.now clashes.now) allowed need 0) }
{
    find::find(wishes, clashes, carriers, allowed, need).is_some()
}

// The articles that the filter leaves. If a goal falls short, there is no selection.
fn filtered(wishes: &[u64; 64], n: usize, groups: &[u8], goals: &[u64]) -> Result<u64, NoSelection>
    requires { (n ≤ 64) × (n ≤ length groups.now) × ((u : ℕ) → u < n → get_or groups.now u 0 < n) }
    ensures { Filtered (listed n wishes.now []) (λ u. get_or groups.now u 0) goals.now result }
{
    let reached = passes::pass_each(wishes, groups, n, goals);
    if reached.short < goals.len() {
        return Err(NoSelection {
            place: reached.short,
        });
    }
    Ok(reached.live)
}

// The choice for an order. If a goal falls short, there is no selection, and no search is made.
pub fn choose(
    wishes: &[u64; 64],
    clashes: &[u64; 64],
    n: usize,
    groups: &[u8],
    goals: &[u64],
    order: u64,
    floor: u64,
) -> Result<Chosen, NoSelection>
    requires { (n ≤ 64) × (n ≤ length groups.now) × Partition (listed n wishes.now clashes.now) (λ u. get_or groups.now u 0) × GoalsWithin order goals.now }
    ensures { result ≡ chosen (listed n wishes.now clashes.now) (λ u. get_or groups.now u 0) goals.now order floor }
{
    let live = filtered(wishes, n, groups, goals)?;
    let both = tables::both_ways(clashes);
    let carriers = table::transposed(wishes);
    tabled::among(wishes, &both, &carriers, n, live, order, floor, goals.len())
}

// The choice for an order by our own partition, with the whole order as the only goal.
pub fn choose_alone(
    wishes: &[u64; 64],
    clashes: &[u64; 64],
    n: usize,
    order: u64,
    floor: u64,
) -> Result<Chosen, NoSelection>
    requires { n ≤ 64 }
    ensures { result ≡ unaided (listed n wishes.now clashes.now) order floor }
{
    let mut groups: [u8; ArticleSet::CAPACITY] = [0; ArticleSet::CAPACITY];
    partition::partition(clashes, n, &mut groups);
    let goals = [order];
    if order == 0 {
        return choose(wishes, clashes, n, &groups, &goals[0..0], order, floor);
    }
    choose(wishes, clashes, n, &groups, &goals, order, floor)
}

// What the program chooses for an order.
pub fn offer(job: ReadChoice, order: u64) -> Result<Chosen, NoSelection>
    requires { job.articles ≤ 64 }
    ensures { result ≡ offered (listed job.articles job.wishes job.clashes) order }
{
    let wishes = job.wishes;
    let clashes = job.clashes;
    choose_alone(&wishes, &clashes, job.articles, order, 0)
}
