// Reading at a place: a decimal number, a fixed byte string, a line of both.
ghost use Rattle.std.specs.Prelude.{◌≡◌, ◌+◌, cond, drop, length};
ghost use Rattle.text.specs.Decimal.{goes_on, number_at};
ghost use Rattle.text.specs.Bytes.{starts};
ghost use Rattle.text.specs.Line.{field_at};

const TENTH: u64 = u64::MAX / 10;

// Whether the byte b is a digit that may follow digits that make n. It compares with a tenth of
// the largest number: a division for each digit would take longer than all the rest.
fn goes_on(n: u64, b: u8) -> bool
    ensures { result ≡ goes_on n b }
{
    b.is_ascii_digit() && n != 0 && (n < TENTH || n == TENTH && b <= b'5')
}

// The decimal number at `at`, ended by one newline.
#[tactic(auto, using(crate::proofs::Numbers::reading))]
fn number_at(s: &[u8], at: usize) -> Option<(u64, usize)>
    ensures { result ≡ number_at s.now at }
{
    let first = *s.get(at)?;
    if !first.is_ascii_digit() {
        return None;
    }
    let mut n = u64::from(first - b'0');
    for i in at + 1..s.len() {
        let b = s[i];
        if b == b'\n' {
            return Some((n, i + 1));
        }
        if !goes_on(n, b) {
            return None;
        }
        n = n * 10 + u64::from(b - b'0');
    }
    None
}

// Whether the bytes of `key` stand at `at`.
pub fn bytes_at(s: &[u8], at: usize, key: &[u8]) -> bool
    ensures { result ≡ starts key.now (drop at s.now) }
{
    let rest = &s[at.min(s.len())..];
    rest.starts_with(key)
}

// The place past the bytes of `key`, where they stand at `at`.
pub fn past_bytes(s: &[u8], at: usize, key: &[u8]) -> Option<usize>
    ensures { result ≡ cond (starts key.now (drop at s.now)) (Some (at + length key.now)) None }
{
    if bytes_at(s, at, key) {
        Some(at + key.len())
    } else {
        None
    }
}

// `kind` and the place past its name, where the name stands at `at`.
pub fn named_at<K: Copy>(s: &[u8], at: usize, name: &[u8], kind: K) -> Option<(K, usize)>
    ensures { result ≡ cond (starts name.now (drop at s.now)) (Some (kind, at + length name.now)) None }
{
    past_bytes(s, at, name).map(|past| (kind, past))
}

// The line of `key` and a number that is at most `most`.
#[tactic(auto, unfolding(crate::specs::Line::field_at))]
pub fn field_at(s: &[u8], at: usize, key: &[u8], most: u64) -> Option<(u64, usize)>
    ensures { result ≡ field_at s.now at key.now most }
{
    let past = past_bytes(s, at, key)?;
    number_at(s, past).filter(|&(n, _)| n <= most)
}
