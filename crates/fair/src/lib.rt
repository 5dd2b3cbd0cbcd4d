// The open call for a fair's orders: many orders against one choice file. It takes the bytes of the file,
// the orders and the buffer as they come: it requires nothing. The file is read once, and what does not
// hang on an order is made once.
#![tactic(auto)]

ghost use Rattle.std.specs.Prelude.{◌≡◌, [], ◌∷◌, ◌++◌, ◌*◌, ◌≤◌, ◌<◌, length, get_or, drop};
ghost use Rattle.network.specs.Network.{listed};
ghost use Rattle.network.specs.Groups.{group_of};
ghost use Rattle.network.specs.Tables.{Tabled};
ghost use Rattle.arguments.specs.Meaning.{network_in};
ghost use Rattle.fair.specs.Fair.{entry_words, entry_of, entries, fair_of, fair_told};
ghost use Rattle.fair.specs.Meaning.{order_over};

use choice::tabled;
use jobfile::ReadChoice;
use network::{partition, tables};
use reading::{Reason, Refusal};
use sets::{ArticleSet, table, word};

// The words of an entry: a status, the selection and the set aside.
const ENTRY_WORDS: usize = 3;

// An entry in the first words of a buffer. Later words stay as they are.
fn put(words: &mut [u64], status: u64, selection: u64, aside: u64)
    requires { entry_words ≤ length words.old }
    ensures { words.new ≡ (status ∷ selection ∷ aside ∷ []) ++ drop entry_words words.old }
{
    words[0] = status;
    words[1] = selection;
    words[2] = aside;
}

// The entry of one order, in the first words of a buffer. The tables and the groups are those of the network.
fn answer(
    wishes: &[u64; 64],
    clashes: &[u64; 64],
    carriers: &[u64; 64],
    groups: &[u8],
    n: usize,
    wish_count: usize,
    order: u64,
    words: &mut [u64],
)
    requires { (n ≤ 64) × (n ≤ length groups.now) × Tabled 64 wishes.now clashes.now carriers.now × ((λ u. get_or groups.now u 0) ≡ group_of (listed n wishes.now clashes.now)) × (entry_words ≤ length words.old) }
    ensures { words.new ≡ entry_of (order_over (listed n wishes.now clashes.now) wish_count order) ++ drop entry_words words.old }
{
    if word::exceeds(order, wish_count) {
        let lacks = u32::from(Reason::OrderOutsideFile);
        put(words, lacks as u64, 0, 0);
        return;
    }
    let chosen = tabled::offer(wishes, clashes, carriers, n, groups, order);
    match chosen {
        Ok(found) => put(words, 0, found.selection, found.aside),
        Err(_none) => {
            let none = u32::from(Reason::NoSelection);
            put(words, none as u64, 0, 0)
        }
    }
}

// The entry of each order, in its own words. Words past the last entry stay as they are.
fn answer_each(
    wishes: &[u64; 64],
    clashes: &[u64; 64],
    carriers: &[u64; 64],
    groups: &[u8],
    n: usize,
    wish_count: usize,
    orders: &[u64],
    words: &mut [u64],
)
    requires { (n ≤ 64) × (n ≤ length groups.now) × Tabled 64 wishes.now clashes.now carriers.now × ((λ u. get_or groups.now u 0) ≡ group_of (listed n wishes.now clashes.now)) × (entry_words * length orders.now ≤ length words.old) }
    ensures { words.new ≡ entries (order_over (listed n wishes.now clashes.now) wish_count) orders.now ++ drop (entry_words * length orders.now) words.old }
{
    for (i, order) in orders.iter().enumerate() {
        let at = ENTRY_WORDS * i;
        answer(
            wishes,
            clashes,
            carriers,
            groups,
            n,
            wish_count,
            *order,
            &mut words[at..],
        );
    }
}

// The same for a file that was read: the tables and our own partition are made once.
fn answer_all(job: ReadChoice, orders: &[u64], words: &mut [u64])
    requires { (job.articles ≤ 64) × (entry_words * length orders.now ≤ length words.old) }
    ensures { words.new ≡ entries (order_over (network_in job) job.wish_count) orders.now ++ drop (entry_words * length orders.now) words.old }
{
    let clashes = tables::both_ways(&job.clashes);
    let carriers = table::transposed(&job.wishes);
    let mut groups: [u8; ArticleSet::CAPACITY] = [0; ArticleSet::CAPACITY];
    partition::partition(&clashes, job.articles, &mut groups);
    answer_each(
        &job.wishes,
        &clashes,
        &carriers,
        &groups,
        job.articles,
        job.wish_count,
        orders,
        words,
    );
}

// An entry for each order, as if it were the order of the file. The file is tested first, then the
// buffer: no product is made for that, since it could wrap.
pub fn fair(file: &[u8], orders: &[u64], words: &mut [u64]) -> Result<(), Refusal>
    ensures { record { answer = fair_told result; buffer = words.new } ≡ fair_of file.now orders.now words.old }
{
    let read = jobfile::read_choice(file)?;
    arguments::room(words.len() / ENTRY_WORDS, orders.len())?;
    answer_all(read, orders, words);
    Ok(())
}
