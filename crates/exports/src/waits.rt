// The check of a wait into a lent buffer.
ghost use Rattle.std.specs.Prelude.{◌≡◌};
ghost use Rattle.text.specs.Write.{put_at, written};
ghost use Rattle.wait_rules.specs.Owner.{Nobody};
ghost use Rattle.wait_report.specs.Report.{report_of};
ghost use Rattle.exports.specs.Status.{reported, holder};

use kinds::{SLOTS, SlotNo, Txid};
use wait::Registration;

// Checks what others did to a table while nobody's slot had to stay. Answers the length of the report; or 0 where it had
// no room, and nothing was written. A report is never empty.
pub fn sockhurdle_wait(table: &[u8], wait: &[u8], out: &mut [u8]) -> usize
    ensures result_value { result ≡ reported (put_at out.old 0 (report_of SLOTS table.now Nobody wait.now)) }
    ensures out_after { out.new ≡ written out.old 0 (report_of SLOTS table.now Nobody wait.now) }
{
    // A number, and no `Option`: C takes it, here and below.
    wait_report::report(table, None, wait, out).unwrap_or(0)
}

// .. while the slot of a registration had to stay.
pub fn sockhurdle_wait_owned(table: &[u8], slot: u16, id: u64, wait: &[u8], out: &mut [u8]) -> usize
    ensures result_value { result ≡ reported (put_at out.old 0 (report_of SLOTS table.now (holder slot id) wait.now)) }
    ensures out_after { out.new ≡ written out.old 0 (report_of SLOTS table.now (holder slot id) wait.now) }
{
    let owner = Registration {
        slot: SlotNo(slot),
        id: Txid(id),
    };
    wait_report::report(table, Some(owner), wait, out).unwrap_or(0)
}
