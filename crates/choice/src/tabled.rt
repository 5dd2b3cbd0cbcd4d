// The choice by tables of the network: whoever has many orders for one network makes them once.
ghost use Rattle.std.specs.Prelude.{◌≡◌, ◌≤◌, length, get_or};
ghost use Rattle.sets.specs.Sets.{full, without};
ghost use Rattle.network.specs.Network.{listed};
ghost use Rattle.network.specs.Groups.{Partition, group_of};
ghost use Rattle.network.specs.Tables.{Tabled};
ghost use Rattle.filter.specs.Filter.{GoalsWithin};
ghost use Rattle.choice.specs.Choice.{smallest, chosen, offered};
ghost use Rattle.choice.specs.Meaning.{chosen_by};

use crate::{Chosen, NoSelection};
use sets::word;

// The choice among live articles; all others are set aside. If there is none, it has this place.
pub fn among(
    wishes: &[u64; 64],
    clashes: &[u64; 64],
    carriers: &[u64; 64],
    n: usize,
    live: u64,
    order: u64,
    floor: u64,
    place: usize,
) -> Result<Chosen, NoSelection>
    requires { (n ≤ 64) × Tabled 64 wishes.now clashes.now carriers.now }
    ensures { result ≡ chosen_by (smallest (listed 64 wishes.now clashes.now) live order floor) (without (full n) live) place }
{
    let aside = word::without(word::full(n), live);
    let found = crate::smallest(wishes, clashes, carriers, live, order, floor);
    let selection = found.ok_or(NoSelection { place })?;
    Ok(Chosen { selection, aside })
}

// The choice for an order. The search is among the articles that the filter leaves: every selection
// lies within them.
pub fn choose(
    wishes: &[u64; 64],
    clashes: &[u64; 64],
    carriers: &[u64; 64],
    n: usize,
    groups: &[u8],
    goals: &[u64],
    order: u64,
) -> Result<Chosen, NoSelection>
    requires { (n ≤ 64) × (n ≤ length groups.now) × Tabled 64 wishes.now clashes.now carriers.now × Partition (listed n wishes.now clashes.now) (λ u. get_or groups.now u 0) × GoalsWithin order goals.now }
    ensures { result ≡ chosen (listed n wishes.now clashes.now) (λ u. get_or groups.now u 0) goals.now order 0 }
{
    let live = crate::filtered(wishes, n, groups, goals)?;
    among(wishes, clashes, carriers, n, live, order, 0, goals.len())
}

// What the program chooses for an order. The groups are those of our own partition.
pub fn offer(
    wishes: &[u64; 64],
    clashes: &[u64; 64],
    carriers: &[u64; 64],
    n: usize,
    groups: &[u8],
    order: u64,
) -> Result<Chosen, NoSelection>
    requires { (n ≤ 64) × (n ≤ length groups.now) × Tabled 64 wishes.now clashes.now carriers.now × ((λ u. get_or groups.now u 0) ≡ group_of (listed n wishes.now clashes.now)) }
    ensures { result ≡ offered (listed n wishes.now clashes.now) order }
{
    let goals = [order];
    if order == 0 {
        return choose(wishes, clashes, carriers, n, groups, &goals[0..0], order);
    }
    choose(wishes, clashes, carriers, n, groups, &goals, order)
}
