// Numbers of 8 bytes, the least byte first.
ghost use Rattle.std.specs.Prelude.{◌≡◌, ℕ, ◌+◌, ◌*◌, ◌≤◌, ◌<◌, length};
ghost use Rattle.image.specs.Words.{word_at, words_from};

use std::array;

// The number in the 8 bytes from `at` on.
pub fn word_at(s: &[u8], at: usize) -> u64
    requires { at + 8 ≤ length s.now }
    ensures { result ≡ word_at s.now at }
{
    u64::from_le_bytes(s[at..at + 8].try_into().unwrap())
}

// So many numbers: the first at `from`, each `apart` bytes after the one before it.
pub fn column<const N: usize>(s: &[u8], from: usize, apart: usize) -> [u64; N]
    requires { (i : ℕ) → i < N → from + apart * i + 8 ≤ length s.now }
    ensures { result ≡ words_from N s.now from apart }
{
    array::from_fn(|i| word_at(s, from + apart * i))
}
