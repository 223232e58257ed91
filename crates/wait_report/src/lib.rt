// The check of a wait as text: the texts of a table and of a wait go in, a verdict and a table come out.
#![tactic(auto)]

mod lines;
mod measure;

ghost use Rattle.std.specs.Prelude.{◌≡◌};
ghost use Rattle.kinds.specs.Verdicts.{tells};
ghost use Rattle.text.specs.Write.{put_at, written};
ghost use Rattle.wait_report.specs.Report.{verdict_lines, answer_text, report_of};

use kinds::{Refusal, SLOTS, Told};
use wait::{Registration, WaitAnswer};

fn told_of(verdict: Result<(), Refusal>) -> Told
    ensures { result ≡ tells verdict }
{
    match verdict {
        Ok(()) => Told {
            number: 0,
            slot: 0,
            id: 0,
            seen: 0,
            at: 0,
        },
        Err(r) => kinds::tell(r),
    }
}

// The five lines alone.
fn put_verdict(out: &mut [u8], told: Told) -> Option<usize>
    ensures value { result ≡ put_at out.old 0 (verdict_lines told) }
    ensures out_after { out.new ≡ written out.old 0 (verdict_lines told) }
{
    if out.len() < measure::verdict_length(told) {
        return None;
    }
    Some(lines::verdict_lines(out, told))
}

// The five lines and the table.
fn put_answer(out: &mut [u8], answer: WaitAnswer) -> Option<usize>
    ensures value { result ≡ put_at out.old 0 (answer_text answer) }
    ensures out_after { out.new ≡ written out.old 0 (answer_text answer) }
{
    let told = told_of(answer.verdict);
    let room = out.len().checked_sub(measure::verdict_length(told))?;
    if room < table_writer::table_length(answer.table) {
        return None;
    }
    let past = lines::verdict_lines(out, told);
    table_writer::put_table(out, past, answer.table)
}

// The report on a wait, from the buffer's start, where there is room for all of it; else nothing is written.
pub fn report(
    table: &[u8],
    owner: Option<Registration>,
    wait: &[u8],
    out: &mut [u8],
) -> Option<usize>
    ensures result_value { result ≡ put_at out.old 0 (report_of SLOTS table.now owner wait.now) }
    ensures out_after { out.new ≡ written out.old 0 (report_of SLOTS table.now owner wait.now) }
{
    match table_text::read_table(table) {
        Ok(entry) => put_answer(out, wait::check_wait(entry, owner, wait)),
        Err(line) => put_verdict(out, kinds::tell(Refusal::BadTrace(line as u64))),
    }
}
