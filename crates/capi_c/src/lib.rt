// The C library: each open call under its name in C. include/kitchen.h declares what is here. A crate is a
// library or is linked with C, and not both; so the work is done by capi, and its clauses stand here again.
#![tactic(auto)]

ghost use Rattle.std.specs.Prelude.{◌≡◌};
ghost use Rattle.reading.specs.Items.{spots};
ghost use Rattle.jobfile.specs.Read.{read, read_job, fittings, either};
ghost use Rattle.jobfile.specs.Meaning.{spot_in};
ghost use Rattle.arguments.specs.Answers.{said};
ghost use Rattle.bill.specs.Price.{price_words_of};
ghost use Rattle.calls.specs.Partition.{partition_of};
ghost use Rattle.calls.specs.Pass.{pass_of};
ghost use Rattle.calls.specs.Choose.{choose_of};
ghost use Rattle.calls.specs.Layers.{fact_layer_of, round_layer_of};
ghost use Rattle.calls.specs.Plan.{plan_of, Buffer};
ghost use Rattle.calls.specs.Find.{find_of};
ghost use Rattle.calls.specs.Compare.{compare_of};
ghost use Rattle.calls.specs.Save.{save_of};
ghost use Rattle.changes.specs.Change.{new_order, new_wishes, new_clashes, new_name};
ghost use Rattle.fair.specs.Fair.{fair_of};
ghost use Rattle.capi.specs.Returned.{returned, returned_three, nothing, alone, passed_words, both, bill_words, test, spotted};
ghost use Rattle.capi.specs.Version.{interface_number};

// ---- choice files

#[unsafe(no_mangle)]
pub extern "C" fn kitchen_partition(file: &[u8], groups: &mut [u8], out: &mut [u64; 2]) -> u32
    ensures out_after { record { status = result; words = out.new } ≡ returned nothing (partition_of file.now groups.old).answer }
    ensures groups_after { groups.new ≡ (partition_of file.now groups.old).buffer }
{
    capi::kitchen_partition(file, groups, out)
}

#[unsafe(no_mangle)]
pub extern "C" fn kitchen_pass(
    file: &[u8],
    groups: &[u8],
    live: u64,
    goal: u64,
    out: &mut [u64; 2],
) -> u32
    ensures { record { status = result; words = out.new } ≡ returned passed_words (said (pass_of file.now groups.now live goal)) }
{
    capi::kitchen_pass(file, groups, live, goal, out)
}

#[unsafe(no_mangle)]
pub extern "C" fn kitchen_choose(
    file: &[u8],
    groups: &[u8],
    goals: &[u64],
    floor: u64,
    out: &mut [u64; 2],
) -> u32
    ensures { record { status = result; words = out.new } ≡ returned both (said (choose_of file.now groups.now goals.now floor)) }
{
    capi::kitchen_choose(file, groups, goals, floor, out)
}

#[unsafe(no_mangle)]
pub extern "C" fn kitchen_price(file: &[u8], rate: u64, out: &mut [u64; 3]) -> u32
    ensures { record { status = result; words = out.new } ≡ returned_three bill_words (said (price_words_of file.now rate)) }
{
    capi::kitchen_price(file, rate, out)
}

#[unsafe(no_mangle)]
pub extern "C" fn kitchen_fair(
    file: &[u8],
    orders: &[u64],
    words: &mut [u64],
    out: &mut [u64; 2],
) -> u32
    ensures out_after { record { status = result; words = out.new } ≡ returned nothing (fair_of file.now orders.now words.old).answer }
    ensures words_after { words.new ≡ (fair_of file.now orders.now words.old).buffer }
{
    capi::kitchen_fair(file, orders, words, out)
}

// ---- fitting files

#[unsafe(no_mangle)]
pub extern "C" fn kitchen_fact_layer(
    file: &[u8],
    layer: u64,
    mutexes: &mut [u32],
    out: &mut [u64; 2],
) -> u32
    ensures out_after { record { status = result; words = out.new } ≡ returned alone (fact_layer_of file.now layer mutexes.old).answer }
    ensures mutexes_after { mutexes.new ≡ (fact_layer_of file.now layer mutexes.old).buffer }
{
    capi::kitchen_fact_layer(file, layer, mutexes, out)
}

#[unsafe(no_mangle)]
pub extern "C" fn kitchen_round_layer(
    file: &[u8],
    layer: u64,
    mutexes: &mut [u64],
    out: &mut [u64; 2],
) -> u32
    ensures out_after { record { status = result; words = out.new } ≡ returned alone (round_layer_of file.now layer mutexes.old).answer }
    ensures mutexes_after { mutexes.new ≡ (round_layer_of file.now layer mutexes.old).buffer }
{
    capi::kitchen_round_layer(file, layer, mutexes, out)
}

#[unsafe(no_mangle)]
pub extern "C" fn kitchen_plan(file: &[u8], rounds: &mut [u32], out: &mut [u64; 2]) -> u32
    ensures out_after { record { status = result; words = out.new } ≡ returned alone (said (plan_of file.now rounds.old)) }
    ensures buffer { Buffer (read_job fittings file.now) rounds.old rounds.new (plan_of file.now rounds.old) }
{
    capi::kitchen_plan(file, rounds, out)
}

// ---- names and comparison

#[unsafe(no_mangle)]
pub extern "C" fn kitchen_name(file: &[u8], number: u64, out: &mut [u64; 2]) -> u32
    ensures { record { status = result; words = out.new } ≡ spotted (spot_in (read spots either file.now) number) }
{
    capi::kitchen_name(file, number, out)
}

#[unsafe(no_mangle)]
pub extern "C" fn kitchen_find(file: &[u8], name: &[u8], out: &mut [u64; 2]) -> u32
    ensures { record { status = result; words = out.new } ≡ returned alone (said (find_of file.now name.now)) }
{
    capi::kitchen_find(file, name, out)
}

#[unsafe(no_mangle)]
pub extern "C" fn kitchen_compare(first: &[u8], second: &[u8], out: &mut [u64; 2]) -> u32
    ensures { record { status = result; words = out.new } ≡ returned test (said (compare_of first.now second.now)) }
{
    capi::kitchen_compare(first, second, out)
}

// ---- saving

#[unsafe(no_mangle)]
pub extern "C" fn kitchen_save_order(
    file: &[u8],
    order: u64,
    to: &mut [u8],
    out: &mut [u64; 2],
) -> u32
    ensures out_after { record { status = result; words = out.new } ≡ returned alone (save_of file.now (new_order order) to.old).answer }
    ensures to_after { to.new ≡ (save_of file.now (new_order order) to.old).buffer }
{
    capi::kitchen_save_order(file, order, to, out)
}

#[unsafe(no_mangle)]
pub extern "C" fn kitchen_save_wishes(
    file: &[u8],
    article: u64,
    wishes: u64,
    to: &mut [u8],
    out: &mut [u64; 2],
) -> u32
    ensures out_after { record { status = result; words = out.new } ≡ returned alone (save_of file.now (new_wishes article wishes) to.old).answer }
    ensures to_after { to.new ≡ (save_of file.now (new_wishes article wishes) to.old).buffer }
{
    capi::kitchen_save_wishes(file, article, wishes, to, out)
}

#[unsafe(no_mangle)]
pub extern "C" fn kitchen_save_clashes(
    file: &[u8],
    article: u64,
    clashes: u64,
    to: &mut [u8],
    out: &mut [u64; 2],
) -> u32
    ensures out_after { record { status = result; words = out.new } ≡ returned alone (save_of file.now (new_clashes article clashes) to.old).answer }
    ensures to_after { to.new ≡ (save_of file.now (new_clashes article clashes) to.old).buffer }
{
    capi::kitchen_save_clashes(file, article, clashes, to, out)
}

#[unsafe(no_mangle)]
pub extern "C" fn kitchen_save_name(
    file: &[u8],
    article: u64,
    name: &[u8],
    to: &mut [u8],
    out: &mut [u64; 2],
) -> u32
    ensures out_after { record { status = result; words = out.new } ≡ returned alone (save_of file.now (new_name article name.now) to.old).answer }
    ensures to_after { to.new ≡ (save_of file.now (new_name article name.now) to.old).buffer }
{
    capi::kitchen_save_name(file, article, name, to, out)
}

// ---- the interface itself

#[unsafe(no_mangle)]
pub extern "C" fn kitchen_version() -> u32
    ensures { result ≡ interface_number }
{
    capi::kitchen_version()
}
