// The open calls, in the order of docs/RULES.md. Each takes the bytes of a file and its other arguments
// as they come: no call requires anything. The file is tested first, then the arguments in the order of
// the reasons' numbers; the calls that save test the new file between 9 and 10. A contract is one
// equation with specs/, for every input, which fixes the answer, a refusal by its number and place, and
// the buffer that is lent; only the words of a plan are left free, and `Buffer` says what holds of them.
#![tactic(auto)]

ghost use Rattle.std.specs.Prelude.{◌≡◌};
ghost use Rattle.reading.specs.declared.Reason.TheVariants.{NameNotFound};
ghost use Rattle.jobfile.specs.Read.{read_job, fittings};
ghost use Rattle.names.specs.Meaning.{holder_of};
ghost use Rattle.arguments.specs.Answers.{found_or, said};
ghost use Rattle.calls.specs.Partition.{partition_of, partition_told};
ghost use Rattle.calls.specs.Pass.{pass_of, pass_told};
ghost use Rattle.calls.specs.Choose.{choose_of, searched, choice_told};
ghost use Rattle.calls.specs.Offer.{offer_of};
ghost use Rattle.calls.specs.Layers.{fact_layer_of, facts_told, round_layer_of, vertices_told};
ghost use Rattle.calls.specs.Plan.{plan_of, plan_told, Buffer};
ghost use Rattle.calls.specs.Name.{name_of};
ghost use Rattle.calls.specs.Find.{find_of, find_told};
ghost use Rattle.calls.specs.Compare.{compare_of, compare_told};
ghost use Rattle.changes.specs.Change.{new_order, new_wishes, new_clashes, new_name};
ghost use Rattle.calls.specs.Save.{save_of, save_told};

use arguments::written;
use choice::NoSelection;
use names::likeness;
use reading::{Reason, Refusal};
use sets::ArticleSet;

// ---- choice files

// Our own partition: the group of each article, in its byte. Later bytes stay as they are.
pub fn partition(file: &[u8], groups: &mut [u8]) -> Result<(), Refusal>
    ensures { record { answer = partition_told result; buffer = groups.new } ≡ partition_of file.now groups.old }
{
    let read = jobfile::read_choice(file)?;
    arguments::room(groups.len(), read.articles)?;
    network::partition::partition(&read.clashes, read.articles, groups);
    Ok(())
}

// The live articles that are left, and the sum of all contributions.
#[derive(Clone, Copy)]
pub struct Passed {
    pub live: ArticleSet,
    pub sum: u64,
}

// A pass of the filter, by the groups lent: what it leaves live, and what the groups contributed to the
// goal before anything was struck.
pub fn pass(file: &[u8], groups: &[u8], live: ArticleSet, goal: u64) -> Result<Passed, Refusal>
    ensures { pass_told result ≡ said (pass_of file.now groups.now live.bits goal) }
{
    let read = jobfile::read_choice(file)?;
    arguments::groups(read, groups)?;
    arguments::live_and_goal(read.articles, read.order, live.bits, goal)?;
    let passed = filter::pass(&read.wishes, groups, read.articles, live.bits, goal);
    Ok(Passed {
        live: ArticleSet { bits: passed.live },
        sum: passed.sum,
    })
}

// A selection, with the set aside.
#[derive(Clone, Copy)]
pub struct Chosen {
    pub selection: ArticleSet,
    pub aside: ArticleSet,
}

// What the search found, or 14.
fn searched(chosen: Result<choice::Chosen, NoSelection>) -> Result<Chosen, Refusal>
    ensures { choice_told result ≡ said (searched chosen) }
{
    let found = chosen?;
    Ok(Chosen {
        selection: ArticleSet {
            bits: found.selection,
        },
        aside: ArticleSet { bits: found.aside },
    })
}

// The smallest selection at or above the floor, with the articles that the filter set aside: by the
// groups lent, with a pass for each goal in turn.
pub fn choose(file: &[u8], groups: &[u8], goals: &[u64], floor: u64) -> Result<Chosen, Refusal>
    ensures { choice_told result ≡ said (choose_of file.now groups.now goals.now floor) }
{
    let read = jobfile::read_choice(file)?;
    arguments::groups(read, groups)?;
    arguments::goals(read.order, goals)?;
    let chosen = choice::choose(
        &read.wishes,
        &read.clashes,
        read.articles,
        groups,
        goals,
        read.order,
        floor,
    );
    searched(chosen)
}

// The choice that the program makes on a file: by our own partition, with the whole order as the only
// goal, and no floor. It is no call of the rules; `kitchen` makes it.
pub fn offer(file: &[u8]) -> Result<Chosen, Refusal>
    ensures { choice_told result ≡ said (offer_of file.now) }
{
    let read = jobfile::read_choice(file)?;
    let chosen = choice::offer(read, read.order);
    searched(chosen)
}

// ---- fitting files

// Fact layer k: its facts, and for each of 32 facts those that it is mutex with, in its word. Later
// words stay as they are.
pub fn fact_layer(file: &[u8], k: usize, words: &mut [u32]) -> Result<u32, Refusal>
    ensures { record { answer = facts_told result; buffer = words.new } ≡ fact_layer_of file.now k words.old }
{
    let read = jobfile::read_fitting(file)?;
    arguments::layer(k, 0, read.horizon, words.len(), written::FACT_WORDS)?;
    let layer = layers::fact_layer(read, k);
    written::facts(words, &layer.words);
    Ok(layer.members as u32)
}

// Round layer k: its vertices, and for each of 64 vertices those that it is mutex with, in its word.
// Later words stay as they are.
pub fn round_layer(file: &[u8], k: usize, words: &mut [u64]) -> Result<u64, Refusal>
    ensures { record { answer = vertices_told result; buffer = words.new } ≡ round_layer_of file.now k words.old }
{
    let read = jobfile::read_fitting(file)?;
    arguments::layer(k, 1, read.horizon, words.len(), written::VERTEX_WORDS)?;
    let layer = layers::round_layer(read, k);
    written::vertices(words, &layer.words);
    Ok(layer.members)
}

// The fewest rounds of a plan within the file's horizon; the words in front have the steps of such a
// plan, a word for each round from the first on. Which of the shortest plans it is, is free.
pub fn plan(file: &[u8], words: &mut [u32]) -> Result<usize, Refusal>
    ensures result_value { plan_told result ≡ said (plan_of file.now words.old) }
    ensures buffer { Buffer (read_job fittings file.now) words.old words.new (plan_of file.now words.old) }
{
    let read = jobfile::read_fitting(file)?;
    arguments::room(words.len(), read.horizon)?;
    let made = planner::plan(read, words);
    match made {
        Some(k) => Ok(k),
        None => Err(Reason::NoPlan.at(0)),
    }
}

// ---- names and comparison

// The name of article or step `number`, as a part of the file; empty if the file is refused, lacks
// that number, or has no name for it.
pub fn name(file: &[u8], number: usize) -> &[u8]
    ensures { result.now ≡ name_of file.now number }
{
    let spot = jobfile::spot(file, number);
    let a = spot.start;
    let e = a + spot.len;
    &file[a..e]
}

// What was found, or 16.
fn answer_of(holder: Option<usize>) -> Result<usize, Refusal>
    ensures { find_told result ≡ said (found_or (holder_of holder) NameNotFound) }
{
    match holder {
        Some(i) => Ok(i),
        None => Err(Reason::NameNotFound.at(0)),
    }
}

// The lowest number of an article or step with this name.
pub fn find(file: &[u8], name: &[u8]) -> Result<usize, Refusal>
    ensures { find_told result ≡ said (find_of file.now name.now) }
{
    let read = jobfile::read_names(file)?;
    answer_of(names::search(file, read.starts, read.lens, read.count, name))
}

// Whether two choice files are alike; the first is tested before the second.
pub fn compare(first: &[u8], second: &[u8]) -> Result<bool, Refusal>
    ensures { compare_told result ≡ said (compare_of first.now second.now) }
{
    let a = jobfile::read_choice(first)?;
    let b = jobfile::read_choice(second)?;
    Ok(likeness::alike(a, b))
}

// ---- saving: each answers the length of the new file

// The choice file with another order, at the front of a buffer. Later bytes stay as they are.
pub fn save_order(file: &[u8], order: u64, to: &mut [u8]) -> Result<usize, Refusal>
    ensures { record { answer = save_told result; buffer = to.new } ≡ save_of file.now (new_order order) to.old }
{
    let draft = drafts::order(file, order);
    drafts::store(draft, to)
}

// The same with other wishes of an article; none drops them from its record.
pub fn save_wishes(
    file: &[u8],
    article: usize,
    wishes: u64,
    to: &mut [u8],
) -> Result<usize, Refusal>
    ensures { record { answer = save_told result; buffer = to.new } ≡ save_of file.now (new_wishes article wishes) to.old }
{
    let draft = drafts::wishes(file, article, wishes);
    drafts::store(draft, to)
}

// The same with other clashes of an article with lower ones; none drops them from its record.
pub fn save_clashes(
    file: &[u8],
    article: usize,
    clashes: ArticleSet,
    to: &mut [u8],
) -> Result<usize, Refusal>
    ensures { record { answer = save_told result; buffer = to.new } ≡ save_of file.now (new_clashes article clashes.bits) to.old }
{
    let draft = drafts::clashes(file, article, clashes.bits);
    drafts::store(draft, to)
}

// The same with another name of an article; an empty one drops it from its record.
pub fn save_name(file: &[u8], article: usize, name: &[u8], to: &mut [u8]) -> Result<usize, Refusal>
    ensures { record { answer = save_told result; buffer = to.new } ≡ save_of file.now (new_name article name.now) to.old }
{
    let draft = drafts::name(file, article, name);
    drafts::store(draft, to)
}
