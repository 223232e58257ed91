// The header of a text.
ghost use Rattle.std.specs.Prelude.{◌≡◌};
ghost use Rattle.trace.specs.Version.{header_at};

use trace::Version;

// The header that a text begins with.
pub fn header_at(s: &[u8]) -> Option<(Version, usize)>
    ensures { result ≡ header_at s.now }
{
    if text::bytes_at(s, 0, b"trace=proc-1\n") {
        return Some((Version::Proc1, 13));
    }
    if text::bytes_at(s, 0, b"trace=proc-2\n") {
        return Some((Version::Proc2, 13));
    }
    if text::bytes_at(s, 0, b"trace=proc-3\n") {
        return Some((Version::Proc3, 13));
    }
    None
}
