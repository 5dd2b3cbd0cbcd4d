// A partition that a caller lends: the lowest article that is misplaced in it, for reason 11.
ghost use Rattle.std.specs.Prelude.{◌≡◌, [], ◌≤◌, ◌<◌, length, get_or};
ghost use Rattle.sets.specs.Ranges.{list_to};
ghost use Rattle.network.specs.Network.{listed};
ghost use Rattle.network.specs.Groups.{misplaced, first_misplaced, grouped};
ghost use Rattle.network.specs.Meaning.{lent_by};

// Whether the group of u is n or more, or u shares it with a lower article that it does not clash
// with. The masks are the sets of lower articles in each group.
fn misplaced(clashes: &[u64; 64], groups: &[u8], masks: &[u64; 64], n: usize, u: usize) -> bool
    requires { (u < n) × (n ≤ 64) × (n ≤ length groups.now) × (masks.now ≡ list_to 64 (grouped (λ v. get_or groups.now v 0) u)) }
    ensures { result ≡ misplaced (listed n [] clashes.now) (λ v. get_or groups.now v 0) u }
{
    let g = usize::from(groups[u]);
    if n <= g {
        return true;
    }
    !crate::clashes_all(clashes, masks[g], u)
}

// The lowest article that is misplaced, if any is. Groups beyond the n-th are not looked at.
pub fn first_misplaced(clashes: &[u64; 64], groups: &[u8], n: usize) -> Option<usize>
    requires { (n ≤ 64) × (n ≤ length groups.now) }
    ensures { result ≡ lent_by (first_misplaced (listed n [] clashes.now) (λ v. get_or groups.now v 0)) }
{
    let mut masks: [u64; 64] = [0; 64];
    for u in 0..n {
        if misplaced(clashes, groups, &masks, n, u) {
            return Some(u);
        }
        crate::enter(&mut masks, usize::from(groups[u]), u);
    }
    None
}
