// The text that the program prints, made on a page of its own. A page that is full stays as it is, so
// that nothing is required of it; the texts of an outcome are all shorter.
#![tactic(auto)]

ghost use Rattle.std.specs.Prelude.{◌≡◌, cond, [], ◌∷◌, ◌+◌, ◌≤◌, ◌<◌, take};
ghost use Rattle.sets.specs.Sets.{member};
ghost use Rattle.text.specs.Text.{decimal, members, refused_text, chosen_text, round_text, rounds_text};
ghost use Rattle.text.specs.Meaning.{shown, extended};

use sets::word;

// The bytes that a page has room for.
const ROOM: usize = 2048;

// The most articles of a selection.
const ARTICLES: usize = 64;

// The most steps of a round.
const STEPS: usize = 32;

// The most rounds of a plan.
pub const HORIZON: usize = 16;

// The byte of the digit 0.
const ZERO: u8 = 48;

// The byte of a blank.
const BLANK: u8 = 32;

// The byte of a colon.
const COLON: u8 = 58;

// The byte that ends a line.
const NEWLINE: u8 = 10;

// The base in which numbers are written.
const TEN: u64 = 10;

// The bytes of a text are the first `len`.
#[derive(Clone, Copy)]
pub struct Page {
    pub bytes: [u8; ROOM],
    pub len: usize,
}

// The page with something more after its text.
impl Page {
    fn empty() -> Page
        ensures { shown result ≡ [] }
    {
        Page {
            bytes: [0; ROOM],
            len: 0,
        }
    }

    // One byte more.
    fn put(self, byte: u8) -> Page
        ensures { shown result ≡ extended self (byte ∷ []) }
    {
        let at = self.len;
        if at < ROOM {
            let mut page = self;
            page.bytes[at] = byte;
            page.len = at + 1;
            return page;
        }
        self
    }

    fn say(self, text: &[u8]) -> Page
        ensures { shown result ≡ extended self text.now }
    {
        let mut done = self;
        for byte in text {
            done = done.put(*byte);
        }
        done
    }

    fn number(self, n: u64) -> Page
        ensures { shown result ≡ extended self (decimal n) }
    {
        if n < TEN {
            return self.put(digit(n));
        }
        self.number(n / TEN).put(digit(n % TEN))
    }

    // Member i of a set, if it is one.
    fn one(self, s: u64, i: usize) -> Page
        requires { i < 64 }
        ensures { shown result ≡ extended self (cond (member s i) (32 ∷ decimal i) []) }
    {
        if word::bit_at(s, i) == 1 {
            return self.put(BLANK).number(i as u64);
        }
        self
    }

    // The members of a set below w.
    fn set(self, s: u64, w: usize) -> Page
        requires { w ≤ 64 }
        ensures { shown result ≡ extended self (members w s) }
    {
        let mut done = self;
        for i in 0..w {
            done = done.one(s, i);
        }
        done
    }

    // Round i + 1.
    fn round(self, i: usize, steps: u32) -> Page
        requires { i < 16 }
        ensures { shown result ≡ extended self (round_text 32 i steps) }
    {
        self.number(i as u64 + 1)
            .put(COLON)
            .set(u64::from(steps), STEPS)
            .put(NEWLINE)
    }
}

// The byte of a digit.
fn digit(n: u64) -> u8
    requires { n < 10 }
    ensures { result ≡ 48 + n }
{
    ZERO + n as u8
}

// How many bytes of a page its text has.
pub fn used(page: Page) -> usize
    ensures upper_bound { result ≤ 2048 }
    ensures bytes_value { take result page.bytes ≡ shown page }
{
    page.len.min(ROOM)
}

pub fn refused(reason: u64, place: u64) -> Page
    ensures { shown result ≡ refused_text reason place }
{
    Page::empty()
        .say(b"refused ")
        .number(reason)
        .say(b" at ")
        .number(place)
        .put(NEWLINE)
}

pub fn chosen(selection: u64, aside: u64) -> Page
    ensures { shown result ≡ chosen_text 64 selection aside }
{
    Page::empty()
        .say(b"chosen")
        .set(selection, ARTICLES)
        .say(b"\naside")
        .set(aside, ARTICLES)
        .put(NEWLINE)
}

pub fn rounds(k: usize, words: &[u32; HORIZON]) -> Page
    requires { k ≤ 16 }
    ensures { shown result ≡ rounds_text 32 k words.now }
{
    let mut done = Page::empty().say(b"rounds ").number(k as u64).put(NEWLINE);
    for (i, steps) in words[..k].iter().enumerate() {
        done = done.round(i, *steps);
    }
    done
}
