// Mutex words, written into a buffer that a caller lends.
ghost use Rattle.std.specs.Prelude.{◌≡◌, ℕ, ◌^◌, ◌≤◌, ◌<◌, length, get_or};
ghost use Rattle.std.proofs.Math.Seq.{paste};

use sets::copy;

// The words of a fact layer.
pub const FACT_WORDS: usize = 32;

// The words of a round layer.
pub const VERTEX_WORDS: usize = 64;

// The words of 32 facts. Later words stay as they are.
pub fn facts(words: &mut [u32], mutex: &[u64; 64])
    requires { (32 ≤ length words.old) × ((i : ℕ) → i < 32 → get_or mutex.now i 0 < 2 ^ 32) }
    ensures { words.new ≡ paste words.old 0 mutex.now 32 }
{
    for i in 0..FACT_WORDS {
        words[i] = mutex[i] as u32;
    }
}

// The words of 64 vertices. Later words stay as they are.
pub fn vertices(words: &mut [u64], mutex: &[u64; 64])
    requires { 64 ≤ length words.old }
    ensures { words.new ≡ paste words.old 0 mutex.now 64 }
{
    copy::words(words, 0, mutex, VERTEX_WORDS);
}
