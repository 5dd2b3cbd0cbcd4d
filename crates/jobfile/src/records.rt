// The records of a job file. The records of every kind are read into one shape, and one loop reads all.
#![tactic(auto, unfolding(crate::specs::Layout::choice, crate::specs::Layout::fitting, crate::specs::Read::record_at, crate::specs::Read::fields_at))]

ghost use Rattle.std.specs.Prelude.{◌≡◌, ◌+◌, ◌≤◌, length, IfOk};
ghost use Rattle.reading.specs.Got.{each_at, up_from};
ghost use Rattle.reading.specs.Items.{spots};
ghost use Rattle.jobfile.specs.Layout.{choice, fitting};
ghost use Rattle.jobfile.specs.Read.{record_at};
ghost use Rattle.jobfile.specs.declared.records.Kind.TheVariants as Kind;
ghost use Rattle.reading.specs.Meaning.{read_from};
ghost use Rattle.jobfile.specs.Meaning.{layout_by, record_of, records_of, Columns};

use reading::{Refusal, Spot, item};
use sets::word;

// The most bytes of a name.
const NAME: u64 = 32;

// The bytes of a set of wishes or articles.
pub const WISH_BYTES: usize = 8;

// The bytes of a set of facts.
pub const FACT_BYTES: usize = 4;

// The bytes of a price.
pub const PRICE_BYTES: usize = 4;

// The fields that the record of an article may have: wishes, clashes, name, price.
const ARTICLE_FIELDS: usize = 4;

// The fields that the record of a step may have: needs, gives, takes, name.
const STEP_FIELDS: usize = 4;

// Which kind of file records are of.
#[derive(Clone, Copy)]
pub enum Kind {
    Choice,
    Fitting,
}

// A record as it is read: its sets in the order of their bits, and its name; and the position after it.
// The third number of an article is its price.
#[derive(Clone, Copy)]
pub struct ReadRecord {
    pub first: u64,
    pub second: u64,
    pub third: u64,
    pub spot: Spot,
    pub next: usize,
}

// The record of an article: wishes, clashes, name, price.
fn article(file: &[u8], at: usize, count: usize, own: usize) -> Result<ReadRecord, Refusal>
    ensures result_value { record_of Kind.Choice result ≡ record_at spots choice count own file.now at }
    ensures len_in_bounds { IfOk result (λ r. r.spot.start + r.spot.len ≤ length file.now) }
{
    let map = item::bit_map(file, Ok(at), ARTICLE_FIELDS)?;
    let m = map.value;
    let wishes = item::field(
        file,
        Ok(map.next),
        word::bit_at(m, 0) == 1,
        WISH_BYTES,
        count,
    )?;
    let clashes = item::field(
        file,
        Ok(wishes.next),
        word::bit_at(m, 1) == 1,
        WISH_BYTES,
        own,
    )?;
    let named = item::name(file, Ok(clashes.next), word::bit_at(m, 2) == 1, NAME)?;
    let price = item::amount(file, Ok(named.next), word::bit_at(m, 3) == 1, PRICE_BYTES)?;
    Ok(ReadRecord {
        first: wishes.value,
        second: clashes.value,
        third: price.value,
        spot: named.spot,
        next: price.next,
    })
}

// The record of a step: needs, gives, takes, name.
fn step(file: &[u8], at: usize, count: usize, own: usize) -> Result<ReadRecord, Refusal>
    ensures result_value { record_of Kind.Fitting result ≡ record_at spots fitting count own file.now at }
    ensures len_in_bounds { IfOk result (λ r. r.spot.start + r.spot.len ≤ length file.now) }
{
    let map = item::bit_map(file, Ok(at), STEP_FIELDS)?;
    let m = map.value;
    let needs = item::field(
        file,
        Ok(map.next),
        word::bit_at(m, 0) == 1,
        FACT_BYTES,
        count,
    )?;
    let gives = item::field(
        file,
        Ok(needs.next),
        word::bit_at(m, 1) == 1,
        FACT_BYTES,
        count,
    )?;
    let takes = item::field(
        file,
        Ok(gives.next),
        word::bit_at(m, 2) == 1,
        FACT_BYTES,
        count,
    )?;
    let named = item::name(file, Ok(takes.next), word::bit_at(m, 3) == 1, NAME)?;
    Ok(ReadRecord {
        first: needs.value,
        second: gives.value,
        third: takes.value,
        spot: named.spot,
        next: named.next,
    })
}

// The record of any kind.
fn read_record(
    file: &[u8],
    at: usize,
    kind: Kind,
    count: usize,
    own: usize,
) -> Result<ReadRecord, Refusal>
    ensures result_value { record_of kind result ≡ record_at spots (layout_by kind) count own file.now at }
    ensures len_in_bounds { IfOk result (λ r. r.spot.start + r.spot.len ≤ length file.now) }
{
    match kind {
        Kind::Choice => article(file, at, count, own),
        Kind::Fitting => step(file, at, count, own),
    }
}

// All records, a column for each number and for the places of the names; and the position after them.
#[derive(Clone, Copy)]
pub struct Records {
    pub first: [u64; 64],
    pub second: [u64; 64],
    pub third: [u64; 64],
    pub starts: [usize; 64],
    pub lens: [usize; 64],
    pub next: usize,
}

// The first n records, from a position on.
fn records_from(
    file: &[u8],
    at: usize,
    kind: Kind,
    count: usize,
    n: usize,
) -> Result<Records, Refusal>
    requires { n ≤ 64 }
    ensures result_value { records_of kind n result ≡ each_at (record_at spots (layout_by kind) count) (up_from n 0) file.now at }
    ensures columns { IfOk result (Columns n (length file.now)) }
{
    let mut records = Records {
        first: [0; 64],
        second: [0; 64],
        third: [0; 64],
        starts: [0; 64],
        lens: [0; 64],
        next: at,
    };
    for i in 0..n {
        let found = read_record(file, records.next, kind, count, i)?;
        records.first[i] = found.first;
        records.second[i] = found.second;
        records.third[i] = found.third;
        records.starts[i] = found.spot.start;
        records.lens[i] = found.spot.len;
        records.next = found.next;
    }
    Ok(records)
}

// The first n records, from where reading is.
pub fn read_records(
    file: &[u8],
    from: Result<usize, Refusal>,
    kind: Kind,
    count: usize,
    n: usize,
) -> Result<Records, Refusal>
    requires { n ≤ 64 }
    ensures result_value { records_of kind n result ≡ read_from from (each_at (record_at spots (layout_by kind) count) (up_from n 0) file.now) }
    ensures columns { IfOk result (Columns n (length file.now)) }
{
    let at = from?;
    records_from(file, at, kind, count, n)
}
