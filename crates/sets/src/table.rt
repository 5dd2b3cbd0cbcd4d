// Tables with a set for each of 64 numbers.
ghost use Rattle.std.specs.Prelude.{◌≡◌, ◌<◌, length};
ghost use Rattle.sets.specs.Tables.{transposed, marked};

use crate::word;

// Puts j into the rows at the members of the set.
fn mark(turned: &mut [u64; 64], set: u64, j: usize)
    requires { (j < 64) × (length turned.old ≡ 64) }
    ensures { turned.new ≡ marked 64 turned.old set j }
{
    let mut left = set;
    while left != 0 {
        let i = word::lowest(left);
        turned[i] = word::more(turned[i], j);
        left = word::rest(left);
    }
}

// The table turned round: of the wishes of each article, the carriers of each wish.
pub fn transposed(table: &[u64; 64]) -> [u64; 64]
    ensures { result ≡ transposed 64 table.now }
{
    let mut turned: [u64; 64] = [0; 64];
    for j in 0..word::WIDTH {
        mark(&mut turned, table[j], j);
    }
    turned
}
