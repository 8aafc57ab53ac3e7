// The account as numbers alone, which a caller in C keeps in its own memory: opened, posted to and read in place.
// It uses the calendar's days, the tariff's prices, the terms, the ledger's event and refusals, the marks, the moves and the account, and in its
// promises the refinement and the posting calls. Its promises cite specs/Numbers.antt. A place is cast by `as`, since u32 has no `From` into
// usize.
#![tactic(auto)]

ghost use Rattle.std.specs.Prelude.{◌≡◌, ◌<◌};
ghost use Rattle.ledger.specs.Rules.{max_payments};
ghost use Rattle.ledger.specs.Refusals.{code_of, answer_record};
ghost use Rattle.numbers.specs.Numbers.{day_in, payment_in, totals_in, account_in, day_numbers, payment_numbers, totals_numbers};
ghost use Rattle.moves.specs.Moves.{charge_places, accepted};
ghost use Rattle.numbers.specs.Numbers.{NumbersComeBack, with_move, posted_in, OpensIn, PostsIn, PostsRowIn};

use account::AsAccount;
use calendar::DAY_COUNT;
use ledger::{Event, MAX_PAYMENTS, Refusal};
use marks::DayBytes;
use moves::{CHARGE_PLACES, Charges, Day, Move, Payment, Totals, Usage};
use posting::Postable;
use tariff::Prices;
use terms::Terms;

// The types below are C's: kinds, and yes and no, are numbers there, of which C may hand in any.

// A usage day: state 1 is estimated, 2 metered, any other blank.
#[repr(C)]
#[derive(Clone, Copy, Debug, PartialEq, Eq, Default)]
pub struct DayNumbers {
    pub state: u32,
    pub wh: u32,
    pub cost: u32,
}

#[repr(C)]
#[derive(Clone, Copy, Debug, PartialEq, Eq, Default)]
pub struct PaymentNumbers {
    pub day: u32,
    pub amount: u32,
    pub part: u32,
    // yes is 1
    pub reversed: u32,
}

#[repr(C)]
#[derive(Clone, Copy, Debug, PartialEq, Eq, Default)]
pub struct TotalsNumbers {
    pub credit: u64,
    pub debit: u64,
    pub plan: u64,
    pub standing: u64,
    pub count: u32,
    pub events: u32,
    pub last: u32,
    // yes is 1
    pub on: u32,
}

// (By `as`, as a constant calls no `from`.)
const DAYS: usize = DAY_COUNT as usize;

const PAYMENTS: usize = MAX_PAYMENTS as usize;

// One account, the wider numbers first, so that every byte is in a field. It is no `Copy`: no call copies it.
#[repr(C)]
pub struct Numbers {
    pub totals: TotalsNumbers,
    pub charges: Charges,
    pub terms: Terms,
    pub prices: Prices,
    pub days: [DayNumbers; DAYS],
    pub payments: [PaymentNumbers; PAYMENTS],
    // 0; C would leave four bytes unused in its place
    pub spare: u32,
    pub marks: DayBytes,
    pub warned: DayBytes,
}

// ---- usage days

impl From<DayNumbers> for Day {
    ghost from_gives = { λ n d. d ≡ day_in n };

    #[tactic(auto, unfolding(crate::specs::Numbers::usage_by_state))]
    fn from(numbers: DayNumbers) -> Day {
        let DayNumbers { state, wh, cost } = numbers;
        let usage = match state {
            1 => Usage::Estimated { wh, cost },
            2 => Usage::Metered { wh, cost },
            _ => Usage::Blank,
        };
        Day { usage }
    }
}

impl From<Day> for DayNumbers {
    ghost from_gives = { λ d n. n ≡ day_numbers d };

    fn from(day: Day) -> DayNumbers {
        match day.usage {
            Usage::Blank => DayNumbers::default(),
            Usage::Estimated { wh, cost } => DayNumbers { state: 1, wh, cost },
            Usage::Metered { wh, cost } => DayNumbers { state: 2, wh, cost },
        }
    }
}

// ---- payments

impl From<PaymentNumbers> for Payment {
    ghost from_gives = { λ n p. p ≡ payment_in n };

    #[tactic(auto, unfolding(crate::specs::Numbers::payment_in))]
    fn from(numbers: PaymentNumbers) -> Payment {
        Payment {
            day: numbers.day,
            amount: numbers.amount,
            part: numbers.part,
            reversed: numbers.reversed == 1,
        }
    }
}

impl From<Payment> for PaymentNumbers {
    ghost from_gives = { λ p n. n ≡ payment_numbers p };

    #[tactic(auto, unfolding(crate::specs::Numbers::payment_numbers))]
    fn from(payment: Payment) -> PaymentNumbers {
        PaymentNumbers {
            day: payment.day,
            amount: payment.amount,
            part: payment.part,
            reversed: u32::from(payment.reversed),
        }
    }
}

// ---- totals

impl From<TotalsNumbers> for Totals {
    ghost from_gives = { λ n s. s ≡ totals_in n };

    #[tactic(auto, unfolding(crate::specs::Numbers::totals_in))]
    fn from(numbers: TotalsNumbers) -> Totals {
        Totals {
            credit: numbers.credit,
            debit: numbers.debit,
            plan: numbers.plan,
            standing: numbers.standing,
            count: numbers.count,
            events: numbers.events,
            last: numbers.last,
            on: numbers.on == 1,
        }
    }
}

impl From<Totals> for TotalsNumbers {
    ghost from_gives = { λ s n. n ≡ totals_numbers s };

    #[tactic(auto, using(ledger::proofs::Cases::flag_is), unfolding(crate::specs::Numbers::totals_numbers))]
    fn from(totals: Totals) -> TotalsNumbers {
        TotalsNumbers {
            credit: totals.credit,
            debit: totals.debit,
            plan: totals.plan,
            standing: totals.standing,
            count: totals.count,
            events: totals.events,
            last: totals.last,
            on: u32::from(totals.on),
        }
    }
}

// ---- the account

// Any numbers are read as an account.
impl AsAccount for Numbers {
    ghost account = { λ n. account_in n };

    fn terms(&self) -> Terms {
        self.terms
    }

    fn totals(&self) -> Totals {
        Totals::from(self.totals)
    }

    fn day(&self, number: u32) -> Day {
        match self.days.get(number as usize) {
            Some(day) => Day::from(*day),
            None => Day::default(),
        }
    }

    fn payment(&self, number: u32) -> Payment {
        match self.payments.get(number as usize) {
            Some(payment) => Payment::from(*payment),
            None => Payment::default(),
        }
    }

    fn charges(&self) -> &Charges {
        &self.charges
    }

    fn marks(&self) -> &DayBytes {
        &self.marks
    }

    fn warned(&self) -> &DayBytes {
        &self.warned
    }

    fn prices(&self) -> &Prices {
        &self.prices
    }
}

// The numbers of an account are read as it. The function does nothing; its promise is the theorem.
pub fn numbers_come_back()
    ensures { NumbersComeBack }
{}

impl Numbers {
    // A fresh account of these terms, whatever stood here. Terms outside their limits are refused by 1, and nothing is written.
    pub fn open(&mut self, t: Terms) -> Result<(), Refusal>
        ensures { OpensIn t self.old self.new (code_of result) }
    {
        if !t.is_valid() {
            return Err(Refusal::Terms);
        }
        self.totals = TotalsNumbers::default();
        self.charges = [0; CHARGE_PLACES];
        self.terms = t;
        self.prices = tariff::opening_prices(t.price);
        self.days = [DayNumbers::default(); DAYS];
        self.payments = [PaymentNumbers::default(); PAYMENTS];
        self.spare = 0;
        self.marks = [0; DAYS];
        self.warned = [0; DAYS];
        Ok(())
    }

    // The cells of a move, each in its own place.
    #[tactic(auto, unfolding(marks::specs::Marks::marked, marks::specs::Marks::mark_range))]
    fn write(&mut self, e: Event, m: Move)
        requires { (m.number < max_payments) × (m.place < charge_places) }
        ensures { self.new ≡ with_move self.old e (accepted m) }
    {
        self.totals = TotalsNumbers::from(m.totals);
        self.payments[m.number as usize] = PaymentNumbers::from(m.payment);
        self.days[(e.usage % DAY_COUNT) as usize] = DayNumbers::from(m.day);
        self.charges[m.place as usize] = m.sum;
        self.warned[(e.day % DAY_COUNT) as usize] = m.warned;
        tariff::set_price(&mut self.prices, m.price_place, e.day, e.amount);
        if let Some(mark) = m.mark {
            marks::set(&mut self.marks, mark.kind, mark.from, mark.to);
        }
    }

    // One event. A refusal writes nothing.
    pub fn post(&mut self, e: Event) -> Result<u64, Refusal>
        ensures { PostsIn self.old e self.new (answer_record result) }
    {
        let m = self.moved(e)?;
        self.write(e, m);
        Ok(m.value)
    }

    // A row of events in order, one code byte each; refused by 16 where the buffer is shorter than the row.
    pub fn post_row(&mut self, row: &[Event], codes: &mut [u8]) -> Result<(), Refusal>
        ensures { PostsRowIn self.old row.now codes.old self.new codes.new (code_of result) }
    {
        posting::post_each(self, row, codes)
    }
}

impl Postable for Numbers {
    ghost account = { λ n. account_in n };

    ghost posted = { λ n e. posted_in n e };

    fn post(&mut self, e: Event) -> Result<u64, Refusal> {
        Numbers::post(self, e)
    }
}
