// A trace reader: it holds the lent trace and its position, and walks. Asked, it answers what it found and the reader
// moved on. Whoever has a text and a place calls `next_record`, which makes a reader and asks it once.
#![tactic(auto)]

ghost use Rattle.std.specs.Prelude.{◌≡◌};
ghost use Rattle.trace.specs.Record.{record_at};
ghost use Rattle.reader.specs.Reader.{standing, past_of, step_of};

use trace::Record;

// The lent trace, and the place in it that is read next.
#[derive(Clone, Copy)]
pub struct Reader<'a> {
    pub text: &'a [u8],
    pub at: usize,
}

// What a reader found, and the reader moved on.
#[derive(Clone, Copy)]
pub struct Step<'a> {
    pub found: Result<(Record, usize), usize>,
    pub reader: Reader<'a>,
}

// A reader that stands at a place: `trace::first_record()`, where a trace is opened.
pub fn at_place<'a>(text: &'a [u8], at: usize) -> Reader<'a>
    ensures { result ≡ standing text.entry at }
{
    Reader { text, at }
}

// The place past what was found; where nothing was found, the place itself.
fn place_past(found: Result<(Record, usize), usize>, at: usize) -> usize
    ensures { result ≡ past_of found at }
{
    match found {
        Ok((_, past)) => past,
        Err(_) => at,
    }
}

// The record at which the reader stands, and the reader moved past it.
pub fn next<'a>(r: Reader<'a>) -> Step<'a>
    ensures { result ≡ step_of r.entry }
{
    let found = trace_lines::record_at(r.text, r.at);
    let at = place_past(found, r.at);
    Step {
        found,
        reader: Reader { text: r.text, at },
    }
}

// The record at a place of a text, and the place past it.
pub fn next_record(text: &[u8], at: usize) -> Result<(Record, usize), usize>
    ensures { result ≡ record_at text.now at }
{
    let step = next(at_place(text, at));
    step.found
}
