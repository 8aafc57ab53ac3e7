// The account record, and its step: in place, and by value; and what is read of an account, however it is kept.
// It uses the calendar, the tariff's prices, the terms, the marks, the moves, and the ledger's event and refusals. Its promises cite
// specs/Step.antt and specs/Record.antt. A place is cast by `as`, since u32 has no `From` into usize.
#![tactic(auto)]

ghost use Rattle.std.specs.Prelude.{◌≡◌};
ghost use Rattle.account.specs.Step.{IsOpened, step_of, stepped_of};
ghost use Rattle.account.specs.Record.{fresh};

pub use as_account::AsAccount;
use calendar::DAY_COUNT;
use ledger::{Event, MAX_PAYMENTS, Refusal};
use marks::DayBytes;
use moves::{CHARGE_PLACES, Charges, Day, Payment, Totals};
use tariff::Prices;
use terms::Terms;

mod as_account;

pub type UsageDays = [Day; DAY_COUNT as usize];

pub type Payments = [Payment; MAX_PAYMENTS as usize];

// One account: its terms, its totals, and what is kept by usage day, day, payment, month with charge kind, and day that has a price. The head keeps
// it in memory of its own, without a heap: so it has arrays of fixed size.
#[derive(Clone, Copy)]
pub struct Account {
    pub terms: Terms,
    pub totals: Totals,
    pub days: UsageDays,
    // one bit a mark kind
    pub marks: DayBytes,
    // 1 on the days of accepted warnings, else 0: a byte, since C's record may have any there
    pub warned: DayBytes,
    pub payments: Payments,
    pub charges: Charges,
    pub prices: Prices,
}

impl Account {
    // A fresh account of these terms. Where they are outside their limits it is no account: every event gets 1.
    #[tactic(auto, unfolding(crate::specs::Record::fresh))]
    pub fn fresh(t: Terms) -> Account
        ensures { result ≡ fresh t }
    {
        Account {
            terms: t,
            totals: Totals::default(),
            days: [Day::default(); DAY_COUNT as usize],
            marks: [0; DAY_COUNT as usize],
            warned: [0; DAY_COUNT as usize],
            payments: [Payment::default(); MAX_PAYMENTS as usize],
            charges: [0; CHARGE_PLACES],
            prices: tariff::opening_prices(t.price),
        }
    }

    // One event: the cells of its move are written back. A refusal writes none of them.
    #[tactic(auto, unfolding(crate::specs::Step::step_of, marks::specs::Marks::marked, marks::specs::Marks::mark_range))]
    pub fn post(&mut self, e: Event) -> Result<u64, Refusal>
        ensures { stepped_of self.new result ≡ step_of self.old e }
    {
        let m = self.moved(e)?;
        self.totals = m.totals;
        self.payments[m.number as usize] = m.payment;
        self.days[(e.usage % DAY_COUNT) as usize] = m.day;
        self.charges[m.place as usize] = m.sum;
        self.warned[(e.day % DAY_COUNT) as usize] = m.warned;
        tariff::set_price(&mut self.prices, m.price_place, e.day, e.amount);
        if let Some(mark) = m.mark {
            marks::set(&mut self.marks, mark.kind, mark.from, mark.to);
        }
        Ok(m.value)
    }
}

// A fresh account of these terms, or the refusal of terms outside their limits.
#[tactic(auto, unfolding(terms::specs::Terms::terms_code))]
pub fn open(t: Terms) -> Result<Account, Refusal>
    ensures { IsOpened t result }
{
    if t.is_valid() {
        Ok(Account::fresh(t))
    } else {
        Err(Refusal::Terms)
    }
}

// The account after an event, and the answer to the event.
#[derive(Clone, Copy)]
pub struct Posted {
    pub account: Account,
    pub answer: Result<u64, Refusal>,
}

// One event, by value: the step of `posting::post`, which the project names.
pub fn step(mut account: Account, e: Event) -> Posted
    ensures { stepped_of result.account result.answer ≡ step_of account e }
{
    let answer = account.post(e);
    Posted { account, answer }
}
