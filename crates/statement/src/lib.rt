// What `summary` prints for a text: its month figures, put whole into a lent buffer.
// It uses the calendar, the ledger's summary, the account, the account of a text, the month's figures, the printing and the transcript, and in its
// definitions the terms and the scanner's. Its promise cites specs/Statement.antt.
#![tactic(auto)]

ghost use Rattle.std.specs.Prelude.{ℕ};
ghost use Rattle.printing.specs.Printer.{HasRoom, Writes, WritesWithin};
ghost use Rattle.months.specs.Summary.{summary_of};
ghost use Rattle.calendar.specs.Calendar.{month_count};
ghost use Rattle.statement.specs.Statement.{payments_part, usage_part, charges_part, summary_line, payments_room, usage_room, charges_room, summary_room, statement_room, month_lines, WholeStatement};

use account::Account;
use calendar::MONTH_COUNT;
use ledger::Summary;
use printing::Printer;

// A buffer that holds any statement.
pub const STATEMENT_ROOM: usize = 8192;

// ---- one line: a field is a call, as its word stands in the definition. A table would cut each word to a slice (`&b".."[..]`), for their
// lengths differ. The room differs by call, so it is asked for and is no invariant of a printer.

// The month, its code and its payments.
fn put_payments(page: &mut Printer, m: u32, s: Summary)
    requires { HasRoom page.old payments_room }
    ensures { WritesWithin payments_room page.old (payments_part m s) page.new }
{
    page.put_field(b"m=", u64::from(m));
    page.put_field(b" code=", u64::from(s.code));
    page.put_field(b" kept_count=", u64::from(s.kept.count));
    page.put_field(b" kept_sum=", s.kept.sum);
    page.put_field(b" reversed_count=", u64::from(s.reversed.count));
    page.put_field(b" reversed_sum=", s.reversed.sum);
}

// Its usage.
fn put_usage(page: &mut Printer, s: Summary)
    requires { HasRoom page.old usage_room }
    ensures { WritesWithin usage_room page.old (usage_part s) page.new }
{
    page.put_field(b" metered_wh=", s.metered.wh);
    page.put_field(b" metered_cost=", s.metered.cost);
    page.put_field(b" estimated_wh=", s.estimated.wh);
    page.put_field(b" estimated_cost=", s.estimated.cost);
}

// Its charges by kind and its average price.
fn put_charges(page: &mut Printer, s: Summary)
    requires { HasRoom page.old charges_room }
    ensures { WritesWithin charges_room page.old (charges_part s) page.new }
{
    page.put_field(b" kind1=", s.charges[0]);
    page.put_field(b" kind2=", s.charges[1]);
    page.put_field(b" kind3=", s.charges[2]);
    page.put_field(b" kind4=", s.charges[3]);
    page.put_field(b" kind5=", s.charges[4]);
    page.put_field(b" average=", s.average);
    page.put_field(b" missing=", u64::from(s.missing));
    page.put_bytes(b"\n");
}

// A month's line.
fn put_line(page: &mut Printer, m: u32, s: Summary)
    requires { HasRoom page.old summary_room }
    ensures { WritesWithin summary_room page.old (summary_line m s) page.new }
{
    put_payments(page, m, s);
    put_usage(page, s);
    put_charges(page, s);
}

// The lines of months 0 to 14.
fn put_months(page: &mut Printer, a: &Account)
    requires { HasRoom page.old statement_room }
    ensures { Writes page.old (month_lines (λ (m : ℕ). summary_of a.now m) month_count) page.new }
{
    for m in 0..MONTH_COUNT {
        put_line(page, m, Summary::from(months::summary(a, m)));
    }
}

// ---- the text

// The statement of a text, from the start of the buffer on, and how many bytes it has. A buffer shorter than `STATEMENT_ROOM` is left alone, and
// the answer is 0: C takes it as a length.
pub fn statement(text: &[u8], out: &mut [u8]) -> usize
    ensures { WholeStatement text.now out.old out.new result }
{
    if out.len() < STATEMENT_ROOM {
        return 0;
    }
    let mut page = Printer { out, at: 0 };
    match text_account::account_of(text) {
        Ok(account) => put_months(&mut page, &account),
        Err(refusal) => transcript::put_refusal(&mut page, refusal),
    }
    page.at
}
