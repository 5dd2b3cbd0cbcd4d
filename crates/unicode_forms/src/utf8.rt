// The characters of bytes, one after the other.
ghost use Rattle.std.specs.Prelude.{◌≡◌, ◌<◌, length, drop};
ghost use Rattle.unicode_forms.specs.Utf8.{covers};
ghost use Rattle.unicode_forms.specs.Forms.{is_pair};
ghost use Rattle.unicode_forms.specs.Meaning.{Read};

// A covered character, and how many bytes it has: one or two.
#[derive(Clone, Copy)]
pub struct Char {
    pub code: u16,
    pub size: usize,
}

// Whether the rule covers a character.
fn covered(c: u16) -> bool
    ensures { result ≡ covers c }
{
    c < 0x180 || 0x300 <= c && c < 0x370
}

// Whether two bytes are those of a covered character. From 0xc2 on: below it the form would be longer than needed.
fn is_pair(a: u16, b: u16) -> bool
    requires { (a < 256) × (b < 256) }
    ensures { result ≡ is_pair a b }
{
    0xc2 <= a && 0x80 <= b && b < 0xc0 && covered(64 * (a - 0xc0) + (b - 0x80))
}

// The covered character at a position, if there is one.
pub fn read(bytes: &[u8], at: usize) -> Option<Char>
    requires { at < length bytes.now }
    ensures { Read result (drop at bytes.now) }
{
    let a = u16::from(bytes[at]);
    if a < 0x80 {
        return Some(Char { code: a, size: 1 });
    }
    if bytes.len() - at < 2 {
        return None;
    }
    let b = u16::from(bytes[at + 1]);
    if !is_pair(a, b) {
        return None;
    }
    Some(Char {
        code: 64 * (a - 0xc0) + (b - 0x80),
        size: 2,
    })
}
