// The items of a job file. A reader is given the file and where reading is in it, or why it ended. It
// gives what it read and the position after that, or the first fault.
#![tactic(auto, unfolding(crate::specs::Items::kind_at, crate::specs::Items::number_at, crate::specs::Items::count_at, crate::specs::Items::map_at, crate::specs::Items::set_at, crate::specs::Items::field_at, crate::specs::Items::length_at, crate::specs::Items::name_at))]

ghost use Rattle.std.specs.Prelude.{◌≡◌, ◌+◌, ◌≤◌, ltb, eqb, length, IfOk};
ghost use Rattle.reading.specs.Got.{optional};
ghost use Rattle.reading.specs.Items.{kind_at, value_at, number_at, count_at, map_at, set_at, amount_at, field_at, length_at, name_at, spots};
ghost use Rattle.reading.specs.Meaning.{tested, finished, got_by, read_from, item_got, name_got};

use crate::{Reason, Refusal, Spot};
use sets::word;

// A number that was read, and the position after it.
#[derive(Clone, Copy)]
pub struct Item {
    pub value: u64,
    pub next: usize,
}

// A name that was read: where it is in the file.
#[derive(Clone, Copy)]
pub struct Named {
    pub spot: Spot,
    pub next: usize,
}

// A test that turns the file down if it found a fault.
fn test(fault: bool, reason: Reason, place: usize) -> Result<(), Refusal>
    ensures { result ≡ tested fault reason place }
{
    if fault {
        return Err(reason.at(place));
    }
    Ok(())
}

// The number that this many bytes spell, from the highest byte down.
fn value(file: &[u8], at: usize, bytes: usize) -> u64
    requires { (at + bytes ≤ length file.now) × (bytes ≤ 8) }
    ensures { result ≡ value_at bytes file.now at }
{
    let mut v: u64 = 0;
    for i in (0..bytes).rev() {
        v = v * 256 + u64::from(file[at + i]);
    }
    v
}

// Whether a file ends before the bytes that are due at a position. No sum is made: it could wrap.
fn ends_early(end: usize, at: usize, due: usize) -> bool
    ensures { result ≡ ltb end (at + due) }
{
    end < at || end - at < due
}

// A number of this many bytes.
fn number(file: &[u8], at: usize, bytes: usize) -> Result<Item, Refusal>
    requires { bytes ≤ 8 }
    ensures { item_got result ≡ number_at bytes file.now at }
{
    let end = file.len();
    test(ends_early(end, at, bytes), Reason::EndsEarly, end)?;
    Ok(Item {
        value: value(file, at, bytes),
        next: at + bytes,
    })
}

// A number of this many bytes that is not 0.
fn present(file: &[u8], at: usize, bytes: usize) -> Result<Item, Refusal>
    requires { bytes ≤ 8 }
    ensures { item_got result ≡ amount_at bytes file.now at }
{
    let item = number(file, at, bytes)?;
    test(item.value == 0, Reason::EmptyField, at)?;
    Ok(item)
}

// The kind of the file, which is to be this one, and the position after it.
pub fn kind(file: &[u8], kind: u8) -> Result<usize, Refusal>
    ensures { got_by kind result ≡ kind_at (λ k. eqb k kind) file.now 0 }
{
    test(file.first() != Some(&kind), Reason::WrongKind, 0)?;
    Ok(1)
}

// A count, or the horizon.
pub fn count(file: &[u8], from: Result<usize, Refusal>, limit: u64) -> Result<Item, Refusal>
    ensures result_value { item_got result ≡ read_from from (count_at 1 limit file.now) }
    ensures value_le_limit { IfOk result (λ item. item.value ≤ limit) }
{
    let place = from?;
    let count = number(file, place, 1)?;
    test(limit < count.value, Reason::OverLimit, place)?;
    Ok(count)
}

// The bit map of a record with this many fields.
pub fn bit_map(file: &[u8], from: Result<usize, Refusal>, fields: usize) -> Result<Item, Refusal>
    ensures { item_got result ≡ read_from from (map_at fields file.now) }
{
    let at = from?;
    let map = number(file, at, 1)?;
    test(word::exceeds(map.value, fields), Reason::ForbiddenBit, at)?;
    Ok(map)
}

// A set whose members are below the limit.
pub fn set(
    file: &[u8],
    from: Result<usize, Refusal>,
    bytes: usize,
    limit: usize,
) -> Result<Item, Refusal>
    requires { bytes ≤ 8 }
    ensures { item_got result ≡ read_from from (set_at bytes limit file.now) }
{
    let at = from?;
    let set = number(file, at, bytes)?;
    test(word::exceeds(set.value, limit), Reason::AbsentMember, at)?;
    Ok(set)
}

// Such a set as a field of a record, which is there if it is marked.
pub fn field(
    file: &[u8],
    from: Result<usize, Refusal>,
    marked: bool,
    bytes: usize,
    limit: usize,
) -> Result<Item, Refusal>
    requires { bytes ≤ 8 }
    ensures { item_got result ≡ read_from from (optional marked 0 (field_at bytes limit) file.now) }
{
    let at = from?;
    if !marked {
        return Ok(Item { value: 0, next: at });
    }
    let item = present(file, at, bytes)?;
    test(word::exceeds(item.value, limit), Reason::AbsentMember, at)?;
    Ok(item)
}

// An amount as a field of a record, likewise.
pub fn amount(
    file: &[u8],
    from: Result<usize, Refusal>,
    marked: bool,
    bytes: usize,
) -> Result<Item, Refusal>
    requires { bytes ≤ 8 }
    ensures { item_got result ≡ read_from from (optional marked 0 (amount_at bytes) file.now) }
{
    let at = from?;
    if marked {
        return present(file, at, bytes);
    }
    Ok(Item { value: 0, next: at })
}

// The length of a name.
fn name_length(file: &[u8], at: usize, limit: u64) -> Result<Item, Refusal>
    ensures { item_got result ≡ length_at limit file.now at }
{
    let item = present(file, at, 1)?;
    test(limit < item.value, Reason::LongName, at)?;
    Ok(item)
}

// A name, which is there if it is marked.
pub fn name(
    file: &[u8],
    from: Result<usize, Refusal>,
    marked: bool,
    limit: u64,
) -> Result<Named, Refusal>
    ensures result_value { name_got result ≡ read_from from (optional marked spots.absent (name_at spots limit) file.now) }
    ensures len_in_bounds { IfOk result (λ named. named.spot.start + named.spot.len ≤ length file.now) }
{
    let at = from?;
    if !marked {
        let spot = Spot { start: 0, len: 0 };
        return Ok(Named { spot, next: at });
    }
    let item = name_length(file, at, limit)?;
    let start = item.next;
    let len = item.value as usize;
    let end = file.len();
    test(ends_early(end, start, len), Reason::EndsEarly, end)?;
    Ok(Named {
        spot: Spot { start, len },
        next: start + len,
    })
}

// The end of the file: nothing may follow.
pub fn finish(file: &[u8], from: Result<usize, Refusal>) -> Result<usize, Refusal>
    ensures { result ≡ finished (length file.now) from }
{
    let at = from?;
    test(at < file.len(), Reason::TrailingBytes, at)?;
    Ok(at)
}
