// Shows what becomes of a file that is cut short or has one bit changed, and the names that a file has.
// reference/damage.py prints the same text from rules of its own.
#![tactic(auto)]

ghost use Rattle.std.specs.Prelude.{◌<◌, length};

use reading::Refusal;
use std::io;

// The sorts of outcomes: accepted, and the reasons 1 to 8.
const SORTS: usize = 9;

// One more file for a reason; 0 means accepted.
fn add(tally: &mut [u64; SORTS], reason: usize) {
    if let Some(count) = tally.get_mut(reason) {
        *count = count.wrapping_add(1);
    }
}

// What a damaged file gives, in short: `ok`, or the reason and the place.
fn note(rt: &impl Print, file: &[u8], tally: &mut [u64; SORTS]) -> io::Result<()> {
    let given: Result<(), Refusal> = show_samples::verdict(file);
    match given {
        Ok(()) => {
            show_print::say(rt, b" ok")?;
            add(tally, 0);
        }
        Err(refusal) => {
            let reason = u32::from(refusal.reason);
            show_print::say_number(rt, b" ", reason as u64)?;
            show_print::say_number(rt, b"@", refusal.place as u64)?;
            add(tally, reason as usize);
        }
    }
    Ok(())
}

// The file with each bit of one byte flipped. The byte is put back at the end.
fn flips(rt: &impl Print, file: &mut [u8], place: usize, tally: &mut [u64; SORTS]) -> io::Result<()>
    requires { place < length file.old }
{
    let byte = file[place];
    for bit in 0..8u32 {
        file[place] = byte ^ (1u8 << bit);
        note(rt, file, tally)?;
    }
    file[place] = byte;
    Ok(())
}

fn totals(rt: &impl Print, label: &[u8], tally: &[u64; SORTS]) -> io::Result<()> {
    show_print::say(rt, label)?;
    show_print::say(rt, b" damaged, accepted and refused by 1 to 8:")?;
    for count in tally {
        show_print::say_number(rt, b" ", *count)?;
    }
    show_print::say(rt, b"\n")
}

// The bytes before a place alone, then the file with each bit of the byte there flipped.
fn at_place(
    rt: &impl Print,
    label: &[u8],
    file: &mut [u8],
    place: usize,
    tally: &mut [u64; SORTS],
) -> io::Result<()>
    requires { place < length file.old }
{
    show_print::say(rt, label)?;
    show_print::say_number(rt, b" ", place as u64)?;
    show_print::say(rt, b":")?;
    note(rt, show_samples::first(file, place), tally)?;
    show_print::say(rt, b", bits")?;
    flips(rt, file, place, tally)?;
    show_print::say(rt, b"\n")
}

fn damage(rt: &impl Print, label: &[u8], file: &mut [u8]) -> io::Result<()> {
    let mut tally = [0u64; SORTS];
    for place in 0..file.len() {
        at_place(rt, label, file, place, &mut tally)?;
    }
    totals(rt, label, &tally)
}

// The name of article or step i as the call gives it, which is a part of the file.
fn name_of(rt: &impl Print, label: &[u8], file: &[u8], i: usize) -> io::Result<()> {
    show_print::say(rt, label)?;
    show_print::say_number(rt, b" name ", i as u64)?;
    show_print::say(rt, b": [")?;
    show_print::say(rt, calls::name(file, i))?;
    show_print::say(rt, b"]\n")
}

fn names(rt: &impl Print, label: &[u8], file: &[u8]) -> io::Result<()> {
    for i in [0, 1, 2, 3, 4, 64, 0x8000_0000_0000_0000] {
        name_of(rt, label, file, i)?;
    }
    Ok(())
}

fn main(rt: HostRuntime) -> io::Result<()> {
    let mut a = show_samples::case_a();
    let mut n = show_samples::case_n();
    let mut f = show_samples::case_f();
    let mut m = show_samples::case_m();
    damage(&rt, b"A", &mut a)?;
    damage(&rt, b"N", &mut n)?;
    damage(&rt, b"F", &mut f)?;
    damage(&rt, b"M", &mut m)?;
    names(&rt, b"N", &n)?;
    names(&rt, b"M", &m)?;
    names(&rt, b"N cut", show_samples::first(&n, n.len() - 1))
}
