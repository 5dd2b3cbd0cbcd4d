// Names of a file that was read: when two are equal, and who has a name; and when two files are alike.
#![tactic(auto)]

ghost use Rattle.std.specs.Prelude.{◌≡◌, ℕ, ◌+◌, ◌≤◌, length, get_or, take, drop};
ghost use Rattle.unicode_forms.specs.Forms.{form};
ghost use Rattle.unicode_forms.specs.Meaning.{told, short};
ghost use Rattle.jobfile.specs.Meaning.{NamesWithin};
ghost use Rattle.names.specs.Names.{same_name, lowest_named};
ghost use Rattle.names.specs.Meaning.{holder_of};

use unicode_forms::form::Form;

pub mod likeness;

// Whether a name of a file is equal to another name, whose form is lent.
pub fn equal(a: &[u8], b: &[u8], wanted: Option<Form>) -> bool
    requires { (length a.now ≤ 32) × (told wanted ≡ short 32 (form b.now)) }
    ensures { result ≡ same_name a.now b.now }
{
    a == b || wanted.is_some() && Form::same(Form::normalized(a), wanted)
}

// The lowest of the first n numbers with this name; an empty name is nobody's. The form of the name is made once.
pub fn search(
    file: &[u8],
    starts: [usize; 64],
    lens: [usize; 64],
    n: usize,
    name: &[u8],
) -> Option<usize>
    requires { (n ≤ 64) × NamesWithin (length file.now) starts lens × ((i : ℕ) → get_or lens i 0 ≤ 32) }
    ensures { holder_of result ≡ lowest_named name.now n (λ i. take (get_or lens i 0) (drop (get_or starts i 0) file.now)) }
{
    if name.len() == 0 {
        return None;
    }
    let wanted = Form::normalized(name);
    for i in 0..n {
        let a = starts[i];
        let e = a + lens[i];
        if equal(&file[a..e], name, wanted) {
            return Some(i);
        }
    }
    None
}
