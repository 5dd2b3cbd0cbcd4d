// Words copied into a buffer that a caller lends.
ghost use Rattle.std.specs.Prelude.{◌≡◌, ◌+◌, ◌≤◌, length};
ghost use Rattle.std.proofs.Math.Seq.{paste};

// The first n words, to the places from `at` on. Words at other places stay as they are.
pub fn words(to: &mut [u64], at: usize, from: &[u64], n: usize)
    requires { (at + n ≤ length to.old) × (n ≤ length from.now) }
    ensures { to.new ≡ paste to.old at from.now n }
{
    to[at..at + n].copy_from_slice(&from[..n]);
}
