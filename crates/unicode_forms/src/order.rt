// What the table says of characters, and canonical order, one character after the other.
ghost use Rattle.std.specs.Prelude.{◌≡◌, true, [], ◌∷◌, ◌++◌, ◌+◌, ◌≤◌, ◌<◌, take};
ghost use Rattle.unicode_forms.specs.Utf8.{covers, covers_all};
ghost use Rattle.unicode_forms.specs.Canonical.{entry_of, class, reorderable};
ghost use Rattle.unicode_forms.specs.Forms.{ordered};

use crate::table;

// The table's entry of a character.
pub fn entry(c: u16) -> u32
    requires { (0xc0 ≤ c) × (covers c ≡ true) }
    ensures { result ≡ entry_of c }
{
    if c < 0x180 {
        return table::at(c as usize - 0xc0);
    }
    table::at(c as usize - 0x300 + 192)
}

// The combining class of a character.
fn class(c: u16) -> u32
    requires { covers c ≡ true }
    ensures { result ≡ class c }
{
    if c < 0xc0 {
        return 0;
    }
    entry(c) / 0x1000000
}

// Whether two characters are a reorderable pair.
fn reorderable(a: u16, b: u16) -> bool
    requires { (covers a ≡ true) × (covers b ≡ true) }
    ensures { result ≡ reorderable a b }
{
    let second = class(b);
    0 < second && second < class(a)
}

// One character more behind those that are in order: it is exchanged with the one before it as long as
// the two are a reorderable pair.
pub fn settled(chars: [u16; 32], count: usize, c: u16) -> [u16; 32]
    requires { (count < 32) × (covers c ≡ true) × (covers_all (take count chars) ≡ true) × (ordered (take count chars) ≡ take count chars) }
    ensures { take (count + 1) result ≡ ordered (take count chars ++ (c ∷ [])) }
{
    let mut next = chars;
    next[count] = c;
    for at in (0..count).rev() {
        if !reorderable(next[at], c) {
            return next;
        }
        next.swap(at + 1, at);
    }
    next
}
