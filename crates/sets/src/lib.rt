// Sets of articles, and the operations on words that the crates above share.
//
// A set is a number: bit i is 1 if i is a member. The definitions are in specs/, for any width; here
// they meet words of 64 bits.
#![tactic(auto)]

ghost use Rattle.std.specs.Prelude.{◌≡◌, cond, ◌^◌, ltb};
ghost use Rattle.sets.specs.Sets.{member, count};
ghost use Rattle.sets.specs.Articles.{taking, giving_up};

pub mod copy;
pub mod table;
pub mod word;

// The set whose one member is the article; the empty set if that is at or above the capacity.
fn alone(article: usize) -> u64
    ensures { result ≡ cond (ltb article 64) (2 ^ article) 0 }
{
    if ArticleSet::CAPACITY <= article {
        return 0;
    }
    word::unit(article)
}

// A set of articles, by value: each method that changes it hands the new set back. No method
// requires anything: a number at or above the capacity is no member and changes nothing.
#[derive(Clone, Copy)]
pub struct ArticleSet {
    pub bits: u64,
}

impl ArticleSet {
    // The numbers below this one can be members.
    pub const CAPACITY: usize = 64;

    // The set with no member.
    pub fn empty() -> ArticleSet
        ensures { result.bits ≡ 0 }
    {
        ArticleSet { bits: 0 }
    }

    // The set with the article, too.
    pub fn with(self, article: usize) -> ArticleSet
        ensures { result.bits ≡ taking 64 self.bits article }
    {
        ArticleSet {
            bits: self.bits | alone(article),
        }
    }

    // The set less the article.
    pub fn without(self, article: usize) -> ArticleSet
        ensures { result.bits ≡ giving_up 64 self.bits article }
    {
        ArticleSet {
            bits: self.bits & !alone(article),
        }
    }

    // Whether the article is a member.
    pub fn contains(self, article: usize) -> bool
        ensures { result ≡ member self.bits article }
    {
        if ArticleSet::CAPACITY <= article {
            return false;
        }
        word::bit_at(self.bits, article) == 1
    }

    // How many members there are.
    pub fn count(self) -> u32
        ensures { result ≡ count self.bits }
    {
        word::count(self.bits)
    }
}
