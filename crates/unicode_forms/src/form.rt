// The normalization form D of bytes, in an array.
ghost use Rattle.std.specs.Prelude.{◌≡◌, true, take};
ghost use Rattle.unicode_forms.specs.Utf8.{covers};
ghost use Rattle.unicode_forms.specs.Canonical.{parts};
ghost use Rattle.unicode_forms.specs.Forms.{form, same_form, Sound};

use crate::{order, utf8};

// The characters that a form has room for. A form has no more characters than its bytes, so this is
// room for the form of every name in a file.
const ROOM: usize = 32;

// Covered characters in canonical order, the first `count`. Bytes have no form if they have no text, or
// if it has more characters than there is room for.
#[derive(Clone, Copy)]
pub struct Form {
    pub count: usize,
    pub chars: [u16; 32],
    ghost sound: { Sound 32 count (take count chars) },
}

impl Form {
    ghost use Rattle.unicode_forms.specs.Meaning.{told, short, more, more_all};

    // One character more, if there is room.
    fn put(self, c: u16) -> Option<Form>
        requires { covers c ≡ true }
        ensures { told result ≡ more 32 (told (Some self)) c }
    {
        let count = self.count;
        if ROOM <= count {
            return None;
        }
        let next = order::settled(self.chars, count, c);
        Some(Form {
            count: count + 1,
            chars: next,
        })
    }

    // The mapping of a character more, if there is room.
    fn add(self, c: u16) -> Option<Form>
        requires { covers c ≡ true }
        ensures { told result ≡ more_all 32 (told (Some self)) (parts c) }
    {
        if c < 0xc0 {
            return self.put(c);
        }
        let e = order::entry(c);
        let one = self.put((e % 0x1000) as u16)?;
        let second = e / 0x1000 % 0x1000;
        if second == 0 {
            return Some(one);
        }
        one.put(second as u16)
    }

    // The form of bytes, if they have one that has room. The walk ends where that is settled.
    pub fn normalized(bytes: &[u8]) -> Option<Form>
        ensures { told result ≡ short 32 (form bytes.now) }
    {
        let n = bytes.len();
        let mut done = Form {
            count: 0,
            chars: [0; 32],
        };
        let mut at: usize = 0;
        while at < n {
            let next = utf8::read(bytes, at)?;
            done = done.add(next.code)?;
            at += next.size;
        }
        Some(done)
    }

    // Whether there are two forms, and they are the same.
    pub fn same(x: Option<Form>, y: Option<Form>) -> bool
        ensures { result ≡ same_form (told x) (told y) }
    {
        match (x, y) {
            (Some(x), Some(y)) => x.chars[..x.count] == y.chars[..y.count],
            _ => false,
        }
    }
}
