// The program: reads a job file from standard input and prints what comes of it.
#![tactic(auto)]

ghost use Rattle.std.specs.Prelude.{◌≤◌, length, take};
ghost use Rattle.std.specs.Io.KnownBytes.{Consumes};

use std::io::Read;

// The bytes that are read at most: no job file has as many.
const INPUT: usize = 4096;

// Reads until `space` is full, the input ends or a read fails, and returns how many bytes it put at
// the start of `space`.
fn read_full<R: Read>(input: &mut R, space: &mut [u8]) -> usize
    ensures within { result ≤ length space.new }
    ensures read { Consumes (R.remaining input.old) (R.remaining input.new) (take result space.new) }
{
    let mut done = 0;
    while done < space.len() {
        match input.read(&mut space[done..]) {
            Ok(n) if n > 0 => done += n,
            _ => break,
        }
    }
    done
}

// The status is 0 even if reading or writing fails, by docs/RULES.md: what was read before is taken for the
// file, and after a failed write the page is cut off.
fn main(rt: HostRuntime) {
    let mut space = [0u8; INPUT];
    let n = read_full(&mut rt.stdin(), &mut space);
    let page = report::report(&space[..n]);
    let len = text::used(page);
    let _ = rt.write_all(&page.bytes[..len]);
}
