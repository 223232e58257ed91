// As many records as have room in a lent buffer, run one after the other on a table that the loop owns.
#![tactic(auto)]

ghost use Rattle.std.specs.Prelude.{◌≡◌, length};
ghost use Rattle.text.specs.Write.{spliced};
ghost use Rattle.replay_part.specs.Course.{course_of, progress_of};

use kinds::SLOTS;
use table::Table;
use trace::Version;

// Where a part of a run stopped: the table, the place of the next record, the bytes written.
#[derive(Clone, Copy)]
pub struct Progress {
    pub table: Table,
    pub at: usize,
    pub filled: usize,
}

// Runs the records under this header from `from` on until none is left, what follows is none, or the next one has no room.
pub fn run_part(version: Version, s: &[u8], from: usize, table: Table, buf: &mut [u8]) -> Progress
    ensures result_value { result ≡ progress_of (course_of version SLOTS (length buf.old) s.now from 0 table) }
    ensures buf_after { buf.new
        ≡ spliced buf.old 0 (course_of version SLOTS (length buf.old) s.now from 0 table).text }
{
    let mut run = Progress {
        table,
        at: from,
        filled: 0,
    };
    // No `for`: where the next record stands is known only once this one was read.
    while run.at != s.len() {
        let Ok((record, next)) = reader::next_record(s, run.at) else {
            return run;
        };
        let ran = step::run_record(version, run.table.lend(), record, buf, run.filled);
        let Some(past) = ran.put else {
            return run;
        };
        table::store(&mut run.table, ran.change);
        run.filled = past;
        run.at = next;
    }
    run
}
