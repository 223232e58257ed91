// The text of a table, in a lent buffer.
ghost use Rattle.std.specs.Prelude.{◌≡◌};
ghost use Rattle.text.specs.Write.{put_at, written};
ghost use Rattle.table_text.specs.TableText.{table_text};

use crate::lines;
use model::Table;

// The text of a table, from `at` on, where there is room for all of it; else nothing is written.
pub fn put_table(buf: &mut [u8], at: usize, table: Table) -> Option<usize>
    ensures value { result ≡ put_at buf.old at (table_text table) }
    ensures buf_after { buf.new ≡ written buf.old at (table_text table) }
{
    let size = table_measure::table_length(table);
    let last_place = buf.len().checked_sub(size)?;
    if last_place < at {
        return None;
    }
    let first = lines::first_line(buf, at);
    Some(lines::lines_under(buf, first, &table))
}
