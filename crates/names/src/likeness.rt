// Whether two choice files that were read are alike.
ghost use Rattle.std.specs.Prelude.{◌≡◌, ◌&&◌, eqb};
ghost use Rattle.sets.specs.Lists.{same_list};

use jobfile::ReadChoice;

// Whether two choices have the same order: a function of its own, so that a wrong comparison is refused
// for what it says.
fn same_order(a: ReadChoice, b: ReadChoice) -> bool
    ensures { result ≡ eqb a.order b.order }
{
    a.order == b.order
}

// Whether two choices are alike.
#[tactic(auto, using(sets::proofs::Lists::pointwise_same))]
pub fn alike(a: ReadChoice, b: ReadChoice) -> bool
    ensures { result ≡ eqb a.articles b.articles && (eqb a.wish_count b.wish_count && (eqb a.order b.order && (same_list a.wishes b.wishes && same_list a.clashes b.clashes))) }
{
    a.articles == b.articles
        && a.wish_count == b.wish_count
        && same_order(a, b)
        && a.wishes == b.wishes
        && a.clashes == b.clashes
}
