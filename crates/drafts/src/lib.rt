// A choice file with one change, on a page of its own: written anew from what the old file was read as,
// and read as any file is. So no test of its own decides what a new file is refused for.
#![tactic(auto)]

ghost use Rattle.std.specs.Prelude.{◌≡◌, ◌≤◌, ◌<◌, take};
ghost use Rattle.jobfile.specs.Write.{write};
ghost use Rattle.changes.specs.Change.{new_order, new_wishes, new_clashes, new_name};
ghost use Rattle.writing.specs.Meaning.{name_most, choice_in, Writable};
ghost use Rattle.drafts.specs.Draft.{drafted, draft_of, stored};
ghost use Rattle.drafts.specs.Meaning.{draft_by, stored_said};

pub mod draft;

pub use draft::Draft;
use draft::PAGE;
use jobfile::ReadChoice;
use reading::Refusal;

// A number that no article has.
const NO_ARTICLE: usize = 64;

// The bytes of a name that are looked at: one more than a name may have. A longer name is refused by its
// first bytes in the same way, whatever its length.
const LOOKED_AT: usize = 33;

// The file of a choice as read, in which article `number` has the other name; or what reading it says.
fn compose(file: &[u8], read: ReadChoice, number: usize, name: &[u8]) -> Result<Draft, Refusal>
    requires { Writable file.now read name.now }
    ensures { draft_by result ≡ drafted (write (choice_in file.now read number name.now)) }
{
    let mut page: [u8; PAGE] = [0; PAGE];
    let len = writing::put_choice(&mut page, file, read, number, name);
    jobfile::read_choice(&page[0..len])?;
    Ok(Draft { len, page })
}

// As much of a name as is needed to show that it is too long.
fn cut(name: &[u8]) -> &[u8]
    ensures { result.now ≡ take name_most name.now }
{
    if name.len() <= LOOKED_AT {
        return name;
    }
    &name[0..LOOKED_AT]
}

// The file with another order.
pub fn order(file: &[u8], order: u64) -> Result<Draft, Refusal>
    ensures { draft_by result ≡ draft_of file.now (new_order order) }
{
    let read = jobfile::read_choice(file)?;
    let other = ReadChoice { order, ..read };
    compose(file, other, NO_ARTICLE, b"")
}

// The file with other wishes of an article.
pub fn wishes(file: &[u8], article: usize, wishes: u64) -> Result<Draft, Refusal>
    ensures { draft_by result ≡ draft_of file.now (new_wishes article wishes) }
{
    let read = jobfile::read_choice(file)?;
    arguments::article(article, read.articles)?;
    let mut other = read;
    other.wishes[article] = wishes;
    compose(file, other, NO_ARTICLE, b"")
}

// The file with other clashes of an article with lower ones.
pub fn clashes(file: &[u8], article: usize, clashes: u64) -> Result<Draft, Refusal>
    ensures { draft_by result ≡ draft_of file.now (new_clashes article clashes) }
{
    let read = jobfile::read_choice(file)?;
    arguments::article(article, read.articles)?;
    let mut other = read;
    other.clashes[article] = clashes;
    compose(file, other, NO_ARTICLE, b"")
}

// The file with another name of an article.
pub fn name(file: &[u8], article: usize, name: &[u8]) -> Result<Draft, Refusal>
    ensures { draft_by result ≡ draft_of file.now (new_name article name.now) }
{
    let read = jobfile::read_choice(file)?;
    arguments::article(article, read.articles)?;
    compose(file, read, article, cut(name))
}

// Writes the new file of a draft to the front of a buffer, if it has room, and tells its length. Later
// bytes stay as they are.
pub fn store(draft: Result<Draft, Refusal>, to: &mut [u8]) -> Result<usize, Refusal>
    ensures { record { answer = stored_said result; buffer = to.new } ≡ stored to.old (draft_by draft) }
{
    let made = draft?;
    let len = made.len;
    arguments::room(to.len(), len)?;
    writing::put_bytes(to, 0, &made.page[0..len]);
    Ok(len)
}
