// Writing at a place of a lent buffer: a line of a key and a number.
#![tactic(auto)]

ghost use Rattle.std.specs.Prelude.{◌<◌, ◌≤◌, ◌+◌, ◌≡◌, length};
ghost use Rattle.std.specs.Option.{unwrap_or};
ghost use Rattle.text.specs.Decimal.{decimal};
ghost use Rattle.text.specs.Line.{line_text};
ghost use Rattle.text.specs.Write.{spliced, put_at, written};

// How many digits n has.
pub fn digits_in(n: u64) -> usize
    ensures value { result ≡ length (decimal n) }
    ensures upper_bound { result ≤ 20 }
{
    n.checked_ilog10().unwrap_or(0) as usize + 1
}

// The digits of n, from `at` to `past`, written from the back.
fn place_digits(buf: &mut [u8], at: usize, past: usize, n: u64)
    requires past_value { past ≡ at + length (decimal n) }
    requires past_in_bounds { past ≤ length buf.old }
    ensures { buf.new ≡ spliced buf.old at (decimal n) }
{
    let mut left = n;
    for i in (at..past).rev() {
        buf[i] = b'0' + (left % 10) as u8;
        left /= 10;
    }
}

// The line of `key` and n, from `at` on, where there is room for it.
pub fn put_line(buf: &mut [u8], at: usize, key: &[u8], n: u64) -> Option<usize>
    ensures value { result ≡ put_at buf.old at (line_text key.now n) }
    ensures buf_after { buf.new ≡ written buf.old at (line_text key.now n) }
{
    let digits = digits_in(n);
    let last_place = buf.len().checked_sub(key.len() + digits + 1)?;
    if last_place < at {
        return None;
    }
    let start = at + key.len();
    let end = start + digits;
    buf[at..start].copy_from_slice(key);
    place_digits(buf, start, end, n);
    buf[end] = b'\n';
    Some(end + 1)
}

// The same, answering the place past the line; without room the place itself, and the buffer stays as it was. For callers who have
// seen that the line has room.
pub fn line(buf: &mut [u8], at: usize, key: &[u8], n: u64) -> usize
    ensures value { result ≡ unwrap_or (put_at buf.old at (line_text key.now n)) at }
    ensures buf_after { buf.new ≡ written buf.old at (line_text key.now n) }
{
    put_line(buf, at, key, n).unwrap_or(at)
}
