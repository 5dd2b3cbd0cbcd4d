// The open calls for C and for all that can call C: numbers and slices only. A slice is a pointer and a
// length there. include/kitchen.h declares what is here, and capi_c exports it. Each function returns 0
// for an answer and the reason's number for a refusal, and always writes all words of `out`.
#![tactic(auto)]

ghost use Rattle.std.specs.Prelude.{◌≡◌, ◌∷◌, ◌-◌, ◌<◌, replicate};
ghost use Rattle.reading.specs.Items.{spots};
ghost use Rattle.reading.specs.Reasons.{number_of};
ghost use Rattle.jobfile.specs.Read.{read, read_job, fittings, either};
ghost use Rattle.jobfile.specs.Meaning.{spot_in};
ghost use Rattle.arguments.specs.Answers.{said};
ghost use Rattle.bill.specs.Price.{price_words_of};
ghost use Rattle.calls.specs.Partition.{partition_of};
ghost use Rattle.calls.specs.Pass.{pass_of};
ghost use Rattle.calls.specs.Choose.{choose_of};
ghost use Rattle.calls.specs.Layers.{fact_layer_of, round_layer_of};
ghost use Rattle.calls.specs.Plan.{plan_of, Buffer};
ghost use Rattle.calls.specs.Find.{find_of};
ghost use Rattle.calls.specs.Compare.{compare_of};
ghost use Rattle.calls.specs.Save.{save_of, save_told};
ghost use Rattle.changes.specs.Change.{new_order, new_wishes, new_clashes, new_name};
ghost use Rattle.fair.specs.Fair.{fair_of};
ghost use Rattle.capi.specs.Returned.{returned, returned_three, nothing, alone, passed_words, both, bill_words, test, spotted};
ghost use Rattle.capi.specs.Version.{interface_number};

use reading::Refusal;
use sets::ArticleSet;

// The number of this interface, which goes up whenever it changes: KITCHEN_VERSION of the header.
const VERSION: u32 = 7;

// An answer: its words, and the status 0.
fn answered<const N: usize>(out: &mut [u64; N], words: [u64; N]) -> u32
    ensures { (result ≡ 0) × (out.new ≡ words.entry) }
{
    *out = words;
    0
}

// A refusal: its place, with zeros after it, and its number as the status.
fn refused<const N: usize>(out: &mut [u64; N], refusal: Refusal) -> u32
    requires { 0 < N }
    ensures { (result ≡ number_of refusal.reason) × (out.new ≡ refusal.place ∷ replicate (N - 1) 0) }
{
    let mut words = [0; N];
    words[0] = refusal.place as u64;
    *out = words;
    u32::from(refusal.reason)
}

// ---- choice files

pub fn kitchen_partition(file: &[u8], groups: &mut [u8], out: &mut [u64; 2]) -> u32
    ensures out_after { record { status = result; words = out.new } ≡ returned nothing (partition_of file.now groups.old).answer }
    ensures groups_after { groups.new ≡ (partition_of file.now groups.old).buffer }
{
    let answer = calls::partition(file, groups);
    match answer {
        Ok(()) => answered(out, [0, 0]),
        Err(refusal) => refused(out, refusal),
    }
}

pub fn kitchen_pass(file: &[u8], groups: &[u8], live: u64, goal: u64, out: &mut [u64; 2]) -> u32
    ensures { record { status = result; words = out.new } ≡ returned passed_words (said (pass_of file.now groups.now live goal)) }
{
    let answer = calls::pass(file, groups, ArticleSet { bits: live }, goal);
    match answer {
        Ok(passed) => answered(out, [passed.live.bits, passed.sum]),
        Err(refusal) => refused(out, refusal),
    }
}

pub fn kitchen_choose(
    file: &[u8],
    groups: &[u8],
    goals: &[u64],
    floor: u64,
    out: &mut [u64; 2],
) -> u32
    ensures { record { status = result; words = out.new } ≡ returned both (said (choose_of file.now groups.now goals.now floor)) }
{
    let answer = calls::choose(file, groups, goals, floor);
    match answer {
        Ok(chosen) => answered(out, [chosen.selection.bits, chosen.aside.bits]),
        Err(refusal) => refused(out, refusal),
    }
}

// The cheapest selection with its total and its tax.
pub fn kitchen_price(file: &[u8], rate: u64, out: &mut [u64; 3]) -> u32
    ensures { record { status = result; words = out.new } ≡ returned_three bill_words (said (price_words_of file.now rate)) }
{
    let answer = bill::price(file, rate);
    match answer {
        Ok(bill) => answered(out, [bill.selection.bits, bill.total, bill.tax]),
        Err(refusal) => refused(out, refusal),
    }
}

// A fair's orders: three words an order.
pub fn kitchen_fair(file: &[u8], orders: &[u64], words: &mut [u64], out: &mut [u64; 2]) -> u32
    ensures out_after { record { status = result; words = out.new } ≡ returned nothing (fair_of file.now orders.now words.old).answer }
    ensures words_after { words.new ≡ (fair_of file.now orders.now words.old).buffer }
{
    let answer = fair::fair(file, orders, words);
    match answer {
        Ok(()) => answered(out, [0, 0]),
        Err(refusal) => refused(out, refusal),
    }
}

// ---- fitting files

pub fn kitchen_fact_layer(file: &[u8], layer: u64, mutexes: &mut [u32], out: &mut [u64; 2]) -> u32
    ensures out_after { record { status = result; words = out.new } ≡ returned alone (fact_layer_of file.now layer mutexes.old).answer }
    ensures mutexes_after { mutexes.new ≡ (fact_layer_of file.now layer mutexes.old).buffer }
{
    let answer = calls::fact_layer(file, layer as usize, mutexes);
    match answer {
        Ok(facts) => answered(out, [facts as u64, 0]),
        Err(refusal) => refused(out, refusal),
    }
}

pub fn kitchen_round_layer(file: &[u8], layer: u64, mutexes: &mut [u64], out: &mut [u64; 2]) -> u32
    ensures out_after { record { status = result; words = out.new } ≡ returned alone (round_layer_of file.now layer mutexes.old).answer }
    ensures mutexes_after { mutexes.new ≡ (round_layer_of file.now layer mutexes.old).buffer }
{
    let answer = calls::round_layer(file, layer as usize, mutexes);
    match answer {
        Ok(vertices) => answered(out, [vertices, 0]),
        Err(refusal) => refused(out, refusal),
    }
}

pub fn kitchen_plan(file: &[u8], rounds: &mut [u32], out: &mut [u64; 2]) -> u32
    ensures out_after { record { status = result; words = out.new } ≡ returned alone (said (plan_of file.now rounds.old)) }
    ensures buffer { Buffer (read_job fittings file.now) rounds.old rounds.new (plan_of file.now rounds.old) }
{
    let answer = calls::plan(file, rounds);
    match answer {
        Ok(count) => answered(out, [count as u64, 0]),
        Err(refusal) => refused(out, refusal),
    }
}

// ---- names and comparison

// Where a name is in the file, by its start and its length.
pub fn kitchen_name(file: &[u8], number: u64, out: &mut [u64; 2]) -> u32
    ensures { record { status = result; words = out.new } ≡ spotted (spot_in (read spots either file.now) number) }
{
    let spot = jobfile::spot(file, number as usize);
    answered(out, [spot.start as u64, spot.len as u64])
}

pub fn kitchen_find(file: &[u8], name: &[u8], out: &mut [u64; 2]) -> u32
    ensures { record { status = result; words = out.new } ≡ returned alone (said (find_of file.now name.now)) }
{
    let answer = calls::find(file, name);
    match answer {
        Ok(number) => answered(out, [number as u64, 0]),
        Err(refusal) => refused(out, refusal),
    }
}

pub fn kitchen_compare(first: &[u8], second: &[u8], out: &mut [u64; 2]) -> u32
    ensures { record { status = result; words = out.new } ≡ returned test (said (compare_of first.now second.now)) }
{
    let answer = calls::compare(first, second);
    match answer {
        Ok(true) => answered(out, [1, 0]),
        Ok(false) => answered(out, [0, 0]),
        Err(refusal) => refused(out, refusal),
    }
}

// ---- saving

// The length of a new file, or why it is not written.
fn saved(out: &mut [u64; 2], answer: Result<usize, Refusal>) -> u32
    ensures { record { status = result; words = out.new } ≡ returned alone (save_told answer) }
{
    match answer {
        Ok(len) => answered(out, [len as u64, 0]),
        Err(refusal) => refused(out, refusal),
    }
}

pub fn kitchen_save_order(file: &[u8], order: u64, to: &mut [u8], out: &mut [u64; 2]) -> u32
    ensures out_after { record { status = result; words = out.new } ≡ returned alone (save_of file.now (new_order order) to.old).answer }
    ensures to_after { to.new ≡ (save_of file.now (new_order order) to.old).buffer }
{
    let answer = calls::save_order(file, order, to);
    saved(out, answer)
}

pub fn kitchen_save_wishes(
    file: &[u8],
    article: u64,
    wishes: u64,
    to: &mut [u8],
    out: &mut [u64; 2],
) -> u32
    ensures out_after { record { status = result; words = out.new } ≡ returned alone (save_of file.now (new_wishes article wishes) to.old).answer }
    ensures to_after { to.new ≡ (save_of file.now (new_wishes article wishes) to.old).buffer }
{
    let answer = calls::save_wishes(file, article as usize, wishes, to);
    saved(out, answer)
}

pub fn kitchen_save_clashes(
    file: &[u8],
    article: u64,
    clashes: u64,
    to: &mut [u8],
    out: &mut [u64; 2],
) -> u32
    ensures out_after { record { status = result; words = out.new } ≡ returned alone (save_of file.now (new_clashes article clashes) to.old).answer }
    ensures to_after { to.new ≡ (save_of file.now (new_clashes article clashes) to.old).buffer }
{
    let answer = calls::save_clashes(file, article as usize, ArticleSet { bits: clashes }, to);
    saved(out, answer)
}

pub fn kitchen_save_name(
    file: &[u8],
    article: u64,
    name: &[u8],
    to: &mut [u8],
    out: &mut [u64; 2],
) -> u32
    ensures out_after { record { status = result; words = out.new } ≡ returned alone (save_of file.now (new_name article name.now) to.old).answer }
    ensures to_after { to.new ≡ (save_of file.now (new_name article name.now) to.old).buffer }
{
    let answer = calls::save_name(file, article as usize, name, to);
    saved(out, answer)
}

// ---- the interface itself

// The number of the interface that was built, for a caller to compare with that of its header.
pub fn kitchen_version() -> u32
    ensures { result ≡ interface_number }
{
    VERSION
}
