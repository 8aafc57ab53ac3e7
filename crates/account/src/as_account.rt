// What is read of an account, however it is kept.
ghost use Rattle.std.specs.Prelude.{◌≡◌, get_or};
ghost use Rattle.account.specs.Record.{blank_day, no_payment};
ghost use Rattle.account.specs.Step.{MovesBy};
ghost use Rattle.account.specs.declared.Account.{Account};

use super::Account;
use calendar::DAY_COUNT;
use ledger::{Event, MAX_PAYMENTS, Refusal};
use marks::DayBytes;
use moves::{Cells, Charges, Day, Move, Payment, Totals};
use tariff::Prices;
use terms::Terms;

// An account as the record, or as numbers in C's memory.
pub trait AsAccount {
    ghost account: { Self → Account };

    fn terms(&self) -> Terms
        ensures { result ≡ (account self.now).terms };

    fn totals(&self) -> Totals
        ensures { result ≡ (account self.now).totals };

    // A usage day; a blank one past the last.
    fn day(&self, number: u32) -> Day
        ensures { result ≡ get_or (account self.now).days number blank_day };

    // A payment; one of nothing past the last.
    fn payment(&self, number: u32) -> Payment
        ensures { result ≡ get_or (account self.now).payments number no_payment };

    fn charges(&self) -> &Charges
        ensures { result.now ≡ (account self.now).charges };

    fn marks(&self) -> &DayBytes
        ensures { result.now ≡ (account self.now).marks };

    fn warned(&self) -> &DayBytes
        ensures { result.now ≡ (account self.now).warned };

    fn prices(&self) -> &Prices
        ensures { result.now ≡ (account self.now).prices };

    // The event's move, or its refusal.
    fn moved(&self, e: Event) -> Result<Move, Refusal>
        ensures { MovesBy (account self.now) e result }
    {
        let cells = Cells {
            terms: self.terms(),
            totals: self.totals(),
            payment: self.payment(e.number % MAX_PAYMENTS),
            day: self.day(e.usage % DAY_COUNT),
            charges: self.charges(),
            marks: self.marks(),
            warned: self.warned(),
            prices: self.prices(),
        };
        moves::move_of(cells, e)
    }
}

impl AsAccount for Account {
    ghost account = { λ a. a };

    fn terms(&self) -> Terms {
        self.terms
    }

    fn totals(&self) -> Totals {
        self.totals
    }

    fn day(&self, number: u32) -> Day {
        match self.days.get(number as usize) {
            Some(day) => *day,
            None => Day::default(),
        }
    }

    fn payment(&self, number: u32) -> Payment {
        match self.payments.get(number as usize) {
            Some(payment) => *payment,
            None => Payment::default(),
        }
    }

    fn charges(&self) -> &Charges {
        &self.charges
    }

    fn marks(&self) -> &DayBytes {
        &self.marks
    }

    fn warned(&self) -> &DayBytes {
        &self.warned
    }

    fn prices(&self) -> &Prices {
        &self.prices
    }
}
