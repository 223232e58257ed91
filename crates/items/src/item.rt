// An item: the line that names its kind, and its five numbers.
ghost use Rattle.std.specs.Prelude.{◌≡◌};
ghost use Rattle.grammar.specs.Named.{Shape};
ghost use Rattle.items.specs.Said.{name_said, kind_said, after_said, any_said};

use text::{Reads, Values};

// What the items of a text are.
pub trait Items {
    type Kind: Copy + 'static;

    type Item: Copy;

    ghost shape: { Shape Self.Kind Self.Item };

    // The key of the line that names a kind, and of the fourth line.
    fn key() -> &'static [u8]
        ensures { result.now ≡ shape.names.key };

    fn fourth() -> &'static [u8]
        ensures { result.now ≡ shape.fourth };

    // The kinds, and the name of each with the newline that ends its line.
    fn kinds() -> &'static [Self::Kind]
        ensures { result.now ≡ shape.names.kinds };

    fn name(kind: Self::Kind) -> &'static [u8]
        ensures { result.now ≡ shape.names.name kind };

    // The numbers that a kind reads, and the item of a kind and its numbers.
    fn reads(kind: Self::Kind) -> Reads
        ensures { result ≡ shape.reads kind };

    fn item(kind: Self::Kind, values: Values) -> Self::Item
        ensures { result ≡ shape.item kind values };
}

// The first kind whose name stands at `at`, and the place past it.
fn name_at<T: Items>(s: &[u8], at: usize) -> Option<(T::Kind, usize)>
    ensures { result ≡ name_said T.shape s.now at }
{
    for &kind in T::kinds() {
        if let Some(past) = text::past_bytes(s, at, T::name(kind)) {
            return Some((kind, past));
        }
    }
    None
}

// The kind whose line stands at `at`, and the place past it.
pub fn kind_at<T: Items>(s: &[u8], at: usize) -> Option<(T::Kind, usize)>
    ensures { result ≡ kind_said T.shape s.now at }
{
    let past = text::past_bytes(s, at, T::key())?;
    name_at::<T>(s, past)
}

// The item of a kind whose line ends just before `at`, and the place past it, or the first of its lines that breaks a rule.
pub fn item_after<T: Items>(s: &[u8], at: usize, kind: T::Kind) -> Result<(T::Item, usize), usize>
    ensures { result ≡ after_said T.shape s.now kind at }
{
    let (values, past) = five_lines::fields_at(s, at, T::fourth(), T::reads(kind))?;
    Ok((T::item(kind, values), past))
}

// The item at `at`, whatever its kind, and the place past it, or the first of its six lines that breaks a rule.
pub fn item_at<T: Items>(s: &[u8], at: usize) -> Result<(T::Item, usize), usize>
    ensures { result ≡ any_said T.shape s.now at }
{
    let (kind, past) = kind_at::<T>(s, at).ok_or(1usize)?;
    item_after::<T>(s, past, kind)
}
