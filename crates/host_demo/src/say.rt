// How numbers and tables are said.
use kinds::SLOTS;
use std::fmt;
use table::Table;

// A number. That of the slots, and one more, are said in words, so that the lines are the same for any.
#[derive(Clone, Copy)]
pub struct Said(pub u64);

impl fmt::Display for Said {
    fn fmt<W: fmt::Write>(&self, f: &mut fmt::Formatter<W>) -> fmt::Result {
        let slots = SLOTS as u64;
        if self.0 == slots {
            f.write_str("SLOTS")
        } else if self.0 == slots + 1 {
            f.write_str("SLOTS+1")
        } else {
            write!(f, "{}", self.0)
        }
    }
}

// The end of a line: a table, with three of its slots.
#[derive(Clone, Copy)]
pub struct Left<'a>(pub &'a Table);

impl fmt::Display for Left<'_> {
    fn fmt<W: fmt::Write>(&self, f: &mut fmt::Formatter<W>) -> fmt::Result {
        let counters = self.0.counters;
        write!(f, " | clock={}", Said(counters.clock))?;
        write!(f, " sample={}", Said(counters.sampled_clock))?;
        write!(f, " line={} slots=", Said(counters.vacuum_line))?;
        let [first, second, third, ..] = self.0.txids;
        let [xmin, second_xmin, third_xmin, ..] = self.0.snapshot_xmins;
        write!(f, "{}/{},", Said(first), Said(xmin))?;
        write!(f, "{}/{},", Said(second), Said(second_xmin))?;
        write!(f, "{}/{}", Said(third), Said(third_xmin))
    }
}
