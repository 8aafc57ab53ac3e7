// The C interface of the account software (include/head.h): one account in the caller's memory, opened, posted to and read in place; an event
// text, read event by event, or printed whole. Codes are numbers there, and no struct has a byte that is in no field.
// It uses the terms, the ledger's event and answers, the account's numbers, the reading calls, the month's figures and page. Its promises cite
// specs/Interface.antt, and those of the calls that it hands on.
#![tactic(auto)]

ghost use Rattle.std.specs.Prelude.{◌≡◌};
ghost use Rattle.ledger.specs.Refusals.{answer_record, summary_record};
ghost use Rattle.numbers.specs.Numbers.{account_in, OpensIn, PostsIn, PostsRowIn};
ghost use Rattle.month_page.specs.Record.{IsPage};
ghost use Rattle.head.specs.Interface.{answer_in, figure_numbers, ReadsIn, SummaryIn};

use account::AsAccount;
use ledger::{Answer, Event, Figures, KindSums, Refusal, Summary, code};
use numbers::Numbers;
use terms::Terms;

mod texts;

// What an event or a page is answered.
#[repr(C)]
#[derive(Clone, Copy, Debug, PartialEq, Eq)]
pub struct AnswerNumbers {
    pub code: u64,
    pub value: u64,
}

impl From<Result<u64, Refusal>> for AnswerNumbers {
    ghost from_gives = { λ r n. answer_in n ≡ answer_record r };

    fn from(answer: Result<u64, Refusal>) -> AnswerNumbers {
        AnswerNumbers {
            code: u64::from(code(answer)),
            value: answer.unwrap_or(0),
        }
    }
}

// The five readings, in cents; service is 0 or 1.
#[repr(C)]
#[derive(Clone, Copy, Debug, PartialEq, Eq)]
pub struct ReadingNumbers {
    pub balance: i64,
    pub settled: i64,
    pub plan: u64,
    pub estimates: u64,
    pub service: u64,
}

// A month's figures; missing is 0 or 1.
#[repr(C)]
#[derive(Clone, Copy, Debug, PartialEq, Eq)]
pub struct FigureNumbers {
    pub code: u64,
    pub kept_count: u64,
    pub kept_sum: u64,
    pub reversed_count: u64,
    pub reversed_sum: u64,
    pub metered_wh: u64,
    pub metered_cost: u64,
    pub estimated_wh: u64,
    pub estimated_cost: u64,
    pub charges: KindSums,
    pub average: u64,
    pub missing: u64,
}

impl From<Summary> for FigureNumbers {
    ghost from_gives = { λ s n. n ≡ figure_numbers s };

    fn from(month: Summary) -> FigureNumbers {
        let charges = month.charges;
        FigureNumbers {
            code: u64::from(month.code),
            kept_count: u64::from(month.kept.count),
            kept_sum: month.kept.sum,
            reversed_count: u64::from(month.reversed.count),
            reversed_sum: month.reversed.sum,
            metered_wh: month.metered.wh,
            metered_cost: month.metered.cost,
            estimated_wh: month.estimated.wh,
            estimated_cost: month.estimated.cost,
            charges,
            average: month.average,
            missing: u64::from(month.missing),
        }
    }
}

// The version of this interface: another number where a call, a struct or the meaning of an account's numbers is another.
#[unsafe(no_mangle)]
pub extern "C" fn prepay_version() -> u32
    ensures { result ≡ 4 }
{
    4
}

// A fresh account. Where the terms are outside their limits the answer is 1, and nothing is written.
#[unsafe(no_mangle)]
pub extern "C" fn prepay_open(account: &mut Numbers, terms: &Terms) -> u8
    ensures { OpensIn terms.now account.old account.new result }
{
    code(account.open(*terms))
}

// One event.
#[unsafe(no_mangle)]
pub extern "C" fn prepay_post(account: &mut Numbers, event: &Event) -> AnswerNumbers
    ensures { PostsIn account.old event.now account.new (answer_in result) }
{
    AnswerNumbers::from(account.post(*event))
}

// A row of events in order, one code byte each; 16 where the buffer is shorter than the row.
#[unsafe(no_mangle)]
pub extern "C" fn prepay_row(account: &mut Numbers, row: &[Event], codes: &mut [u8]) -> u8
    ensures { PostsRowIn account.old row.now codes.old account.new codes.new result }
{
    code(account.post_row(row, codes))
}

// The readings.
#[unsafe(no_mangle)]
pub extern "C" fn prepay_readings(account: &Numbers) -> ReadingNumbers
    ensures { ReadsIn account.now result }
{
    let totals = account.totals();
    ReadingNumbers {
        balance: readings::balance(totals),
        settled: readings::settled(totals),
        plan: readings::plan(totals),
        estimates: readings::estimates(totals),
        service: u64::from(readings::service(totals)),
    }
}

// A month's figures.
#[unsafe(no_mangle)]
pub extern "C" fn prepay_summary(account: &Numbers, month: u32) -> FigureNumbers
    ensures { SummaryIn account.now month result }
{
    FigureNumbers::from(Summary::from(months::summary(account, month)))
}

// A month's page, laid into a lent buffer.
#[unsafe(no_mangle)]
pub extern "C" fn prepay_page(account: &Numbers, month: u32, out: &mut [u8]) -> AnswerNumbers
    ensures { IsPage (account_in account.now) month out.old out.new (answer_in result) }
{
    // a length is a u64: usize has no `From` into it
    let page = month_page::page(account, month, out);
    AnswerNumbers::from(page.map(|length| length as u64))
}
