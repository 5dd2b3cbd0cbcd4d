// Writing a choice file into a page, item by item. Each function returns the place after what it put.
#![tactic(auto)]

ghost use Rattle.std.specs.Prelude.{◌≡◌, not, cond, [], ◌∷◌, ◌+◌, ◌*◌, ◌≤◌, ◌<◌, length, take, drop};
ghost use Rattle.sets.specs.Ranges.{num, list_to};
ghost use Rattle.jobfile.specs.Layout.{choice};
ghost use Rattle.jobfile.specs.Write.{bytes_of, field_bytes, name_bytes, write_record, write_all, write};
ghost use Rattle.writing.specs.Put.{Put};
ghost use Rattle.writing.specs.Meaning.{head_bytes, name_most, record_most, article_by, article_in, choice_in, Writable};

use jobfile::records::{PRICE_BYTES, WISH_BYTES};
use jobfile::{CHOICE, ReadChoice};

// The bytes of a count.
const COUNT_BYTES: usize = 1;

// What the fields of an article add to its bit map.
const WISHES_MARK: u8 = 1;

const CLASHES_MARK: u8 = 2;

const NAME_MARK: u8 = 4;

const PRICE_MARK: u8 = 8;

// One byte.
fn put_byte(page: &mut [u8], at: usize, byte: u8) -> usize
    requires { at < length page.old }
    ensures { Put page.old at (byte ∷ []) page.new result }
{
    page[at] = byte;
    at + 1
}

// A number in this many bytes, the lowest first.
fn put_number(page: &mut [u8], at: usize, bytes: usize, number: u64) -> usize
    requires { at + bytes ≤ length page.old }
    ensures { Put page.old at (bytes_of bytes number) page.new result }
{
    let mut rest = number;
    for i in 0..bytes {
        page[at + i] = (rest % 256) as u8;
        rest /= 256;
    }
    at + bytes
}

// A set or a price as a field of a record: 0 is left out.
fn put_field(page: &mut [u8], at: usize, bytes: usize, value: u64) -> usize
    requires { at + bytes ≤ length page.old }
    ensures { Put page.old at (field_bytes bytes value) page.new result }
{
    if value == 0 {
        return at;
    }
    put_number(page, at, bytes, value)
}

// Bytes as they are, one by one: to copy them as a slice, the library for C would need `memmove`.
pub fn put_bytes(page: &mut [u8], at: usize, bytes: &[u8]) -> usize
    requires { at + length bytes.now ≤ length page.old }
    ensures { Put page.old at bytes.now page.new result }
{
    for i in 0..bytes.len() {
        page[at + i] = bytes[i];
    }
    at + bytes.len()
}

// A name with its length in front: an empty one is left out.
fn put_name(page: &mut [u8], at: usize, name: &[u8]) -> usize
    requires { (at + length name.now < length page.old) × (length name.now < 256) }
    ensures { Put page.old at (name_bytes name.now) page.new result }
{
    if name.len() == 0 {
        return at;
    }
    let start = put_byte(page, at, name.len() as u8);
    put_bytes(page, start, name)
}

// What a field adds to the bit map, if it is there.
fn mark(empty: bool, bit: u8) -> u8
    ensures { (result ≡ bit * num (not empty)) × (result ≤ bit) }
{
    if empty {
        return 0;
    }
    bit
}

// An article's record.
fn put_record(
    page: &mut [u8],
    at: usize,
    wishes: u64,
    clashes: u64,
    name: &[u8],
    price: u64,
) -> usize
    requires { (at + record_most ≤ length page.old) × (length name.now ≤ name_most) }
    ensures { Put page.old at (write_record choice (article_by wishes clashes name.now price)) page.new result }
{
    let map = mark(wishes == 0, WISHES_MARK)
        + mark(clashes == 0, CLASHES_MARK)
        + mark(name.len() == 0, NAME_MARK)
        + mark(price == 0, PRICE_MARK);
    let a = put_byte(page, at, map);
    let b = put_field(page, a, WISH_BYTES, wishes);
    let c = put_field(page, b, WISH_BYTES, clashes);
    let d = put_name(page, c, name);
    put_field(page, d, PRICE_BYTES, price)
}

// The record of an article that has the other name, or keeps the one that is at its spot in the file.
fn put_article(
    page: &mut [u8],
    at: usize,
    wishes: u64,
    clashes: u64,
    price: u64,
    file: &[u8],
    start: usize,
    len: usize,
    other: bool,
    name: &[u8],
) -> usize
    requires { (at + record_most ≤ length page.old) × (length name.now ≤ name_most) × (start + len ≤ length file.now) × (len ≤ 32) }
    ensures put { Put page.old at (write_record choice (article_by wishes clashes (cond other name.now (take len (drop start file.now))) price)) page.new result }
    ensures upper_bound { result ≤ at + record_most }
{
    if other {
        return put_record(page, at, wishes, clashes, name, price);
    }
    let end = start + len;
    put_record(page, at, wishes, clashes, &file[start..end], price)
}

// The records of all articles.
fn put_records(
    page: &mut [u8],
    at: usize,
    file: &[u8],
    read: ReadChoice,
    number: usize,
    name: &[u8],
) -> usize
    requires { (at + record_most * read.articles ≤ length page.old) × Writable file.now read name.now }
    ensures put { Put page.old at (write_all (write_record choice) (list_to read.articles (article_in file.now read number name.now))) page.new result }
    ensures upper_bound { result ≤ at + record_most * read.articles }
{
    let mut k = at;
    for i in 0..read.articles {
        k = put_article(
            page,
            k,
            read.wishes[i],
            read.clashes[i],
            read.prices[i],
            file,
            read.starts[i],
            read.lens[i],
            i == number,
            name,
        );
    }
    k
}

// The whole file of a choice as read, but that article `number` has the other name; a number that no
// article has changes no name.
pub fn put_choice(
    page: &mut [u8],
    file: &[u8],
    read: ReadChoice,
    number: usize,
    name: &[u8],
) -> usize
    requires { (head_bytes + record_most * read.articles ≤ length page.old) × Writable file.now read name.now }
    ensures put { Put page.old 0 (write (choice_in file.now read number name.now)) page.new result }
    ensures upper_bound { result ≤ head_bytes + record_most * read.articles }
{
    let a = put_byte(page, 0, CHOICE);
    let b = put_number(page, a, COUNT_BYTES, read.articles as u64);
    let c = put_number(page, b, COUNT_BYTES, read.wish_count as u64);
    let d = put_number(page, c, WISH_BYTES, read.order);
    put_records(page, d, file, read, number, name)
}
