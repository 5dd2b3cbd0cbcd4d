// The tables of a network that a search is lent, made once.
ghost use Rattle.std.specs.Prelude.{◌≡◌};
ghost use Rattle.network.specs.Tables.{both_ways};

use sets::table;

// All that each article clashes with.
pub fn both_ways(clashes: &[u64; 64]) -> [u64; 64]
    ensures { result ≡ both_ways 64 clashes.now }
{
    let named_by = table::transposed(clashes);
    let mut both: [u64; 64] = [0; 64];
    for (u, said) in clashes.iter().enumerate() {
        both[u] = *said | named_by[u];
    }
    both
}
