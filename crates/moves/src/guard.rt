// The checks that every event passes first: that the record is an account, then codes 2, 3 and 4.
ghost use Rattle.std.specs.Prelude.{◌≡◌, IfOk};
ghost use Rattle.calendar.specs.Calendar.{weekday_number, month_on, weekday_on};
ghost use Rattle.ledger.specs.Refusals.{code_of};
ghost use Rattle.moves.specs.Moves.{early_code, accepted, arrays_in, cells_before};

use super::{Cells, Move, is_account};
use calendar::{DAY_COUNT, FINAL_DAY, Weekday};
use ledger::{Event, MAX_EVENTS, MAX_PAYMENTS, Refusal};
use tariff::PRICE_CELLS;

// An event that passed the checks, with the account's cells, and the move that leaves them as they are. Its ghost field is what the sorts'
// functions rest on: the fields are within their limits, and no sum wraps. Its functions are inlined, and `move_of`: a call would copy all of it.
#[derive(Clone, Copy)]
pub(crate) struct Checked<'a> {
    pub cells: Cells<'a>,
    pub before: Move,
    pub event: Event,
    ghost passed: { early_code cells.terms before.totals event ≡ 0 },
}

impl<'a> Checked<'a> {
    // Refused by 1 where the record is no account, then by 2, 3 or 4.
    #[tactic(auto, unfolding(crate::specs::Moves::early_code, crate::specs::Moves::cells_before))]
    #[inline(always)]
    pub(crate) fn new(cells: Cells<'a>, event: Event) -> Result<Checked<'a>, Refusal>
        ensures code { let c = cells.entry in code_of result ≡ early_code c.terms c.totals event }
        ensures same { let c = cells.entry in
            IfOk result (λ k. (k.cells ≡ c)
            × (accepted k.before ≡ cells_before c.totals c.payment c.day (arrays_in c) event)
            × (k.event ≡ event)) }
    {
        let s = cells.totals;
        if !is_account(cells.terms, s) {
            return Err(Refusal::Terms);
        }
        if event.day < s.last || event.day > FINAL_DAY {
            return Err(Refusal::Day);
        }
        limits::check(event)?;
        if s.events >= MAX_EVENTS {
            return Err(Refusal::Full);
        }
        // A number past the payments is looked at by its remainder: a sort that names it refuses it.
        let before = Move {
            value: 0,
            totals: s,
            number: event.number % MAX_PAYMENTS,
            payment: cells.payment,
            day: cells.day,
            place: 0,
            sum: cells.charges[0],
            warned: cells.warned[(event.day % DAY_COUNT) as usize],
            price_place: PRICE_CELLS,
            mark: None,
        };
        Ok(Checked {
            cells,
            before,
            event,
        })
    }

    // The weekday of the event's day. (This and the next differ in the call.)
    #[tactic(auto, using(crate::proofs::Early::weekday_is))]
    #[inline(always)]
    pub(crate) fn weekday(self) -> Weekday
        ensures { let c = self.entry in weekday_number result ≡ weekday_on c.cells.terms.opened c.event.day }
    {
        let opened = self.cells.terms.opened;
        calendar::weekday_of(opened, self.event.day).unwrap()
    }

    // The month of the event's day.
    #[tactic(auto, using(crate::proofs::Early::month_is))]
    #[inline(always)]
    pub(crate) fn month(self) -> u32
        ensures { let c = self.entry in result ≡ month_on c.cells.terms.opened c.event.day }
    {
        let opened = self.cells.terms.opened;
        calendar::month_of(opened, self.event.day).unwrap()
    }
}
