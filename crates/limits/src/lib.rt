// The limits of an event's fields (code 3).
// It uses the calendar, the terms' limit of a price, the ledger's event and limits, and in its definitions the terms' `within`. Its promise cites the
// ledger's specs/Event.antt.
#![tactic(auto)]

ghost use Rattle.std.specs.Prelude.{◌≡◌, cond, ◌&&◌, leb};
ghost use Rattle.calendar.specs.Calendar.{final_day};
ghost use Rattle.terms.specs.Terms.{within, max_price};
ghost use Rattle.ledger.specs.Event.{max_amount, in_limits, is_charge_kind, is_mark_kind, is_plan_kind};
ghost use Rattle.ledger.specs.Refusals.{code_of};

use ledger::{Event, Refusal};

fn is_amount(amount: u32) -> bool
    ensures { result ≡ within 1 max_amount amount }
{
    (1..=ledger::MAX_AMOUNT).contains(&amount)
}

// The kinds are an event's numbers, of which C hands in any: document 01 names the `match` on them with a range arm.
fn is_charge(kind: u32, amount: u32) -> bool
    ensures { result ≡ (is_charge_kind kind && within 1 max_amount amount) }
{
    match kind {
        1 | 2 | 3 | 4 | 5 => is_amount(amount),
        0 | 6.. => false,
    }
}

fn are_days(day: u32, from: u32, to: u32) -> bool
    ensures { result ≡ (leb day from && (leb from to && leb to final_day)) }
{
    day <= from && from <= to && to <= calendar::FINAL_DAY
}

fn is_mark(kind: u32, day: u32, from: u32, to: u32) -> bool
    ensures { result ≡ (is_mark_kind kind && (leb day from && (leb from to && leb to final_day))) }
{
    match kind {
        1 | 2 | 3 => are_days(day, from, to),
        0 | 4.. => false,
    }
}

fn is_plan(kind: u32) -> bool
    ensures { result ≡ is_plan_kind kind }
{
    match kind {
        1 | 2 => true,
        0 | 3.. => false,
    }
}

fn is_price(price: u32) -> bool
    ensures { result ≡ within 1 max_price price }
{
    (1..=terms::MAX_PRICE).contains(&price)
}

// Whether the sort, and the fields that it names, are within their limits.
#[tactic(auto, unfolding(ledger::specs::Event::in_limits))]
fn in_limits(e: Event) -> bool
    ensures { result ≡ in_limits e }
{
    match e.sort {
        1 | 3 => is_amount(e.amount),
        4 => is_charge(e.kind, e.amount),
        5 | 6 => e.wh <= ledger::MAX_WH,
        8 => is_mark(e.kind, e.day, e.from, e.to),
        9 => is_plan(e.kind),
        12 => is_price(e.amount),
        2 | 7 | 10 | 11 => true,
        0 | 13.. => false,
    }
}

// A refusal by 3 where they are not.
pub fn check(e: Event) -> Result<(), Refusal>
    ensures { code_of result ≡ cond (in_limits e) 0 3 }
{
    if in_limits(e) {
        Ok(())
    } else {
        Err(Refusal::Limits)
    }
}
