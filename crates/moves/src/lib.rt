// What one event does to the totals and to the cells of the record that it may change, by its sort, and what it is answered.
// It uses the calendar, the tariff, the marks, the terms, the limits and the ledger's event. Its promises cite specs/Moves.antt and
// specs/Sorts.antt. Where a cost or a part is known to fit 32 bits, `as` narrows it; a place is cast to an index, since u32 has no `From` into usize.
#![tactic(auto)]

ghost use Rattle.std.specs.Prelude.{◌≡◌, ◌<◌};
ghost use Rattle.ledger.specs.Rules.{max_events};
ghost use Rattle.moves.specs.Moves.{is_in_range, is_account, tallied, arrays_in, by_sort, IsMove};
ghost use Rattle.moves.specs.Sorts.{Gives};

use guard::Checked;
use ledger::{Event, MAX_PAYMENTS, Refusal};
pub use mark::Mark;
use marks::DayBytes;
use tariff::Prices;
use terms::Terms;

mod charges;
mod days;
mod guard;
mod mark;
mod payments;
mod prices;
mod service;

// A usage day's state, with its Wh and cost.
#[derive(Clone, Copy, Debug, PartialEq, Eq, Default)]
pub enum Usage {
    #[default]
    Blank,
    Estimated { wh: u32, cost: u32 },
    Metered { wh: u32, cost: u32 },
}

#[derive(Clone, Copy, Debug, PartialEq, Eq, Default)]
pub struct Day {
    pub usage: Usage,
}

#[derive(Clone, Copy, Debug, PartialEq, Eq, Default)]
pub struct Payment {
    pub day: u32,
    pub amount: u32,
    // what of the amount went to the plan
    pub part: u32,
    pub reversed: bool,
}

// Credits and debits are separate growing totals: the balance B is credit less debit.
#[derive(Clone, Copy, Debug, PartialEq, Eq, Default)]
pub struct Totals {
    pub credit: u64,
    pub debit: u64,
    // the unpaid plan R
    pub plan: u64,
    // the cost of the standing estimates
    pub standing: u64,
    // payments and events accepted
    pub count: u32,
    pub events: u32,
    // the last accepted event's day
    pub last: u32,
    // service
    pub on: bool,
}

impl Totals {
    // Whether each sum is one that an account's can come to.
    pub fn is_in_range(self) -> bool
        ensures { result ≡ is_in_range self }
    {
        self.credit <= MAX_TOTAL
            && self.debit <= MAX_TOTAL
            && self.plan <= MAX_TOTAL
            && self.standing <= MAX_TOTAL
    }

    // With one more event, of the day.
    fn tallied(self, day: u32) -> Totals
        requires { self.events < max_events }
        ensures { result ≡ tallied self day }
    {
        Totals {
            events: self.events + 1,
            last: day,
            ..self
        }
    }
}

// What an accepted event is answered, the totals after it, and the one cell of each array that it may change. A cell that it leaves stands here as
// it was, and is written back, as the step's definition (account's specs/Step.antt) has it: an `Option` for each would make both longer.
#[derive(Clone, Copy, Debug, PartialEq, Eq)]
pub struct Move {
    pub value: u64,
    pub totals: Totals,
    // payment `number`
    pub number: u32,
    pub payment: Payment,
    // the event's usage day
    pub day: Day,
    // the charges summed at `place`
    pub place: u32,
    pub sum: u64,
    // the warning byte of the event's day, 0 or 1: C's record has a byte a day
    pub warned: u8,
    // where the event's price is written; past the cells where it is none
    pub price_place: u32,
    pub mark: Option<Mark>,
}

// A place for each month and charge kind: month m's charges of kind k are summed at 5 m + k - 1.
// One array and its place, as the definitions have it: an array for each month would be indexed twice in each of them.
pub const CHARGE_PLACES: usize = (calendar::MONTH_COUNT * ledger::CHARGE_KIND_COUNT) as usize;

pub type Charges = [u64; CHARGE_PLACES];

// No account's total passes 2 ^ 60.
pub const MAX_TOTAL: u64 = 1152921504606846976;

// Whether the terms and the totals can be an account's: then no sum of a step wraps.
#[tactic(auto, unfolding(crate::specs::Moves::is_account, terms::specs::Terms::terms_code))]
pub fn is_account(t: Terms, s: Totals) -> bool
    ensures { result ≡ is_account t s }
{
    t.is_valid() && s.is_in_range() && s.count <= MAX_PAYMENTS
}

// What of an account an event may read: the terms, the totals, the payment at its number, its usage day, and the charges, marks, warnings and
// prices.
#[derive(Clone, Copy)]
pub struct Cells<'a> {
    pub terms: Terms,
    pub totals: Totals,
    pub payment: Payment,
    pub day: Day,
    pub charges: &'a Charges,
    pub marks: &'a DayBytes,
    pub warned: &'a DayBytes,
    pub prices: &'a Prices,
}

impl Checked<'_> {
    // The move of the event by its sort: a match on the number with a range arm, as document 01 names it, since C hands in any number.
    #[tactic(auto, unfolding(crate::specs::Moves::by_sort))]
    #[inline(always)]
    fn by_sort(self) -> Result<Move, Refusal>
        ensures { let c = self.entry.cells in
            Gives self.entry result (λ t m e. by_sort t m (arrays_in c) e e.sort) }
    {
        match self.event.sort {
            1 => self.pay(),
            2 => self.reverse(),
            3 => self.credit(),
            4 => self.charge(),
            5 => self.estimate(),
            6 => self.read(),
            7 => self.warn(),
            8 => self.mark(),
            9 => self.plan(),
            10 => self.disconnect(),
            11 => self.connect(),
            12 => self.price(),
            0 | 13.. => Err(Refusal::Limits),
        }
    }
}

// The move of an event over the cells, or its refusal.
#[tactic(auto, using(crate::proofs::Places::is_move), unfolding(crate::specs::Moves::cells_before, crate::specs::Moves::move_of))]
#[inline(always)]
pub fn move_of(cells: Cells, e: Event) -> Result<Move, Refusal>
    ensures { let c = cells.entry in
        IsMove c.terms c.totals c.payment c.day (arrays_in c) e result }
{
    let checked = Checked::new(cells, e)?;
    checked.by_sort()
}
