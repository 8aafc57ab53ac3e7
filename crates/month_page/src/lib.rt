// The page of a month: its figures and its payments as lines of 72 columns, laid into a lent buffer.
// It uses the calendar, the ledger's refusals, the moves' payment, the account, the month's figures and the printing, and in its definitions the
// terms, the scanner's words and the refinement. Its promises cite specs/Record.antt, which cites specs/Page.antt and specs/Columns.antt, and
// specs/Figures.antt; inside the crate specs/Work.antt. A count is cast by `as`, since usize has no `From` of u32.
#![tactic(auto)]

ghost use Rattle.std.specs.Prelude.{◌≡◌, ◌*◌, ◌≤◌, ◌<◌, ◌++◌, true, [], ◌∷◌, length, drop, IfSome, map, Ok};
ghost use Rattle.calendar.specs.Calendar.{opens, month_count};
ghost use Rattle.ledger.specs.Rules.{max_payments};
ghost use Rattle.ledger.specs.Refusals.{answer_record, summary_record};
ghost use Rattle.months.specs.Summary.{WithinLimits};
ghost use Rattle.printing.specs.Printer.{HasRoom, WritesWithin};
ghost use Rattle.month_page.specs.Page.{label, label_columns, figure_columns, line_size, figure_or_none, hundredths_of, month_line, figure_lines};
ghost use Rattle.month_page.specs.Work.{FigureStands, FiguresStand, Lays};
ghost use Rattle.month_page.specs.Figures.{Shown, shown, averages};
ghost use Rattle.month_page.specs.Record.{payment_line, paid_lines_of, IsPage};

use account::AsAccount;
use calendar::Date;
use ledger::{Figures, MAX_PAYMENTS, Refusal};
use moves::Payment;
use printing::Printer;

// The columns of a figure, those before it, and the bytes of a line.
const FIGURE: usize = 14;

const LABEL: usize = 72 - FIGURE;

const LINE: usize = 73;

// The lines beside those of payments.
const LINE_COUNT: u32 = 6;

// A buffer that holds any page.
pub const PAGE_ROOM: usize = LINE * (LINE_COUNT + MAX_PAYMENTS) as usize;

const SPACES: [u8; LABEL] = [b' '; LABEL];

// A line of the page, by its sort.
#[derive(Clone, Copy, Debug, PartialEq, Eq)]
pub enum Line {
    Month { year: u32, month: u32 },
    Paid { date: Date, amount: u32 },
    Usage { wh: u64, cost: u64 },
    Kind { kind: u32, sum: u64 },
    Average { average: Option<u64> },
}

// What is shown of each average is what the rows expect.
pub fn figures_hold()
    ensures { map shown averages ≡ map (λ (x : Shown). x.expected) averages }
{}

// The number that the line's figure shows, in hundredths.
fn hundredths_of(line: Line) -> Option<u64>
    ensures { result ≡ hundredths_of line }
{
    match line {
        Line::Month { .. } => None,
        Line::Paid { amount, .. } => Some(u64::from(amount)),
        Line::Usage { cost, .. } => Some(cost),
        Line::Kind { sum, .. } => Some(sum),
        Line::Average { average } => average,
    }
}

fn put_label(page: &mut Printer, line: Line)
    requires { HasRoom page.old label_columns }
    ensures { WritesWithin label_columns page.old (label line) page.new }
{
    match line {
        Line::Month { year, month } => {
            page.put_field(b"Month ", u64::from(year));
            page.put_two_digits(b"-", u64::from(month));
        }
        Line::Paid { date, .. } => {
            page.put_field(b"Paid ", u64::from(date.year));
            page.put_two_digits(b"-", u64::from(date.month));
            page.put_two_digits(b"-", u64::from(date.day));
        }
        Line::Usage { wh, .. } => {
            page.put_field(b"Usage ", wh);
            page.put_bytes(b" Wh");
        }
        Line::Kind { kind, .. } => page.put_field(b"Kind ", u64::from(kind)),
        Line::Average { .. } => page.put_bytes(b"Average"),
    }
}

// A figure, where there is one and it is not too wide: the room is that of its columns.
fn figure_in(n: Option<u64>, out: &mut [u8]) -> usize
    requires { length out.old ≡ figure_columns }
    ensures { (result ≡ length (figure_or_none n)) × (out.new ≡ figure_or_none n ++ drop result out.old) }
{
    let mut figure = Printer { out, at: 0 };
    if let Some(n) = n {
        figure.put_hundredths(n);
    }
    figure.at
}

fn put_line(page: &mut Printer, line: Line)
    requires { HasRoom page.old line_size × FigureStands line }
    ensures { Lays page.old (line ∷ []) page.new }
{
    let start = page.at;
    put_label(page, line);
    page.put_bytes(&SPACES[..start + LABEL - page.at]);
    let mut figure = [0u8; FIGURE];
    let length = figure_in(hundredths_of(line), &mut figure);
    page.put_bytes(&SPACES[..FIGURE - length]);
    page.put_bytes(&figure[..length]);
    page.put_bytes(b"\n");
}

fn put_lines(page: &mut Printer, lines: &[Line])
    requires { HasRoom page.old (line_size * length lines.now) × FiguresStand lines.now }
    ensures { Lays page.old lines.now page.new }
{
    for line in lines {
        put_line(page, *line);
    }
}

// A payment's line, where it is kept and of month m.
#[tactic(auto, unfolding(months::specs::Summary::in_month_of))]
fn payment_line(opened: Date, m: u32, p: Payment) -> Option<Line>
    ensures line { result ≡ payment_line opened m p }
    ensures stands { IfSome result FigureStands }
{
    let date = calendar::date_of(opened, p.day)?;
    let is_kept = date.month_from(opened) == u64::from(m) && !p.reversed;
    if is_kept {
        let amount = p.amount;
        Some(Line::Paid { date, amount })
    } else {
        None
    }
}

// The lines of the month's kept payments, by number.
fn put_payments<A: AsAccount>(page: &mut Printer, a: &A, m: u32)
    requires room { HasRoom page.old (line_size * length (paid_lines_of (A.account a.now) m)) }
    requires count { (A.account a.now).totals.count ≤ max_payments }
    ensures { Lays page.old (paid_lines_of (A.account a.now) m) page.new }
{
    let opened = a.terms().opened;
    // `min` changes nothing, and spares each payment the test whether it is past the last.
    for number in 0..a.totals().count.min(MAX_PAYMENTS) {
        if let Some(line) = payment_line(opened, m, a.payment(number)) {
            put_line(page, line);
        }
    }
}

// The month of number m, counted from the opening month, which `is_account` bounds.
fn month_line(opened: Date, m: u32) -> Line
    requires { (opens opened ≡ true) × (m < month_count) }
    ensures { result ≡ month_line opened m }
{
    let months = opened.month - 1 + m;
    Line::Month {
        year: opened.year + months / 12,
        month: months % 12 + 1,
    }
}

// The lines after the payments.
fn figure_lines(figures: Figures) -> [Line; 5]
    requires { WithinLimits (summary_record (Ok figures)) }
    ensures lines { result ≡ figure_lines (summary_record (Ok figures)) }
    ensures stand { FiguresStand result }
{
    let [_, _, reconnection, returned, other] = figures.charges;
    [
        Line::Usage {
            wh: figures.metered.wh + figures.estimated.wh,
            cost: figures.metered.cost + figures.estimated.cost,
        },
        Line::Kind {
            kind: 3,
            sum: reconnection,
        },
        Line::Kind {
            kind: 4,
            sum: returned,
        },
        Line::Kind {
            kind: 5,
            sum: other,
        },
        Line::Average {
            average: figures.average,
        },
    ]
}

// The page of month m, and how many bytes it has: refused as the month's figures are, then by 16 where the buffer is shorter.
pub fn page<A: AsAccount>(a: &A, m: u32, out: &mut [u8]) -> Result<usize, Refusal>
    ensures { IsPage (A.account a.now) m out.old out.new (answer_record result) }
{
    let figures = months::summary(a, m)?;
    let length = LINE * (LINE_COUNT + figures.kept.count) as usize;
    if out.len() < length {
        return Err(Refusal::Buffer);
    }
    let mut page = Printer { out, at: 0 };
    put_line(&mut page, month_line(a.terms().opened, m));
    put_payments(&mut page, a, m);
    put_lines(&mut page, &figure_lines(figures));
    Ok(length)
}
