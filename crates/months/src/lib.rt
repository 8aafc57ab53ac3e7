// A month's figures, off an account however it is kept.
// It uses the calendar, the ledger, the moves and the account, and in its promise the terms and the refinement: it says the figures twice, off the
// record, and in the ledger's terms. A place is cast by `as`, since u32 has no `From` into usize.
#![tactic(auto)]

ghost use Rattle.std.specs.Prelude.{◌≡◌, ◌+◌, ◌*◌, ◌≤◌, ◌<◌, true, get_or, eqb};
ghost use Rattle.calendar.specs.Calendar.{day_count, month_count};
ghost use Rattle.ledger.specs.Rules.{max_payments};
ghost use Rattle.ledger.specs.Months.{average_of};
ghost use Rattle.ledger.specs.Refusals.{average_or_0, is_average_missing, summary_record};
ghost use Rattle.months.specs.Summary.{payment_kept, payment_reversed, counted_by, metered_by, estimated_by, charges_of, max_charge_sum, are_in_range, max_field, IsSummary};
ghost use Rattle.months.specs.Work.{span, max_averaged};

use account::AsAccount;
use ledger::{CHARGE_KIND_COUNT, Counted, Figures, KindSums, MAX_PAYMENTS, Refusal, Used};
use moves::{Charges, Usage};
use std::ops::Range;

// No list of charges takes a sum past this: a record that has one is no account of this software's.
const MAX_CHARGE_SUM: u64 = 1099511627776;

// One payment more.
fn add_payment(paid: &mut Counted, amount: u32)
    requires { (paid.old.count < max_payments) × (paid.old.sum ≤ max_payments * max_field) }
    ensures { paid.new ≡ record { count = paid.old.count + 1; sum = paid.old.sum + amount } }
{
    paid.count += 1;
    paid.sum += u64::from(amount);
}

// The account's first payments, so many: those of the days that are kept, and those that are reversed.
#[tactic(auto, unfolding(crate::specs::Summary::payments_by, calendar::specs::Calendar::total))]
fn paid_in<A: AsAccount>(a: &A, count: u32, days: &Range<u32>) -> (Counted, Counted)
    requires { count ≤ max_payments }
    ensures kept { result.0 ≡ counted_by (span days.now) payment_kept (A.account a.now).payments count }
    ensures reversed { result.1 ≡ counted_by (span days.now) payment_reversed (A.account a.now).payments count }
{
    let mut kept = Counted::default();
    let mut reversed = Counted::default();
    // `min` changes nothing, and spares each payment the test whether it is past the last.
    for number in 0..count.min(MAX_PAYMENTS) {
        let p = a.payment(number);
        if days.contains(&p.day) {
            if p.reversed {
                add_payment(&mut reversed, p.amount);
            } else {
                add_payment(&mut kept, p.amount);
            }
        }
    }
    (kept, reversed)
}

// One usage day more: as for payments, but `Used` and `Counted` have other fields.
fn add_usage(used: &mut Used, wh: u32, cost: u32)
    requires { (used.old.wh ≤ day_count * max_field) × (used.old.cost ≤ day_count * max_field) }
    ensures { used.new ≡ record { wh = used.old.wh + wh; cost = used.old.cost + cost } }
{
    used.wh += u64::from(wh);
    used.cost += u64::from(cost);
}

// The metered usage of those days, and the estimated.
#[tactic(auto, using(crate::proofs::Turns::usage_none, crate::proofs::Turns::usage_turn, crate::proofs::Turns::usage_all))]
fn used_in<A: AsAccount>(a: &A, days: &Range<u32>) -> (Used, Used)
    requires { (days.now.start ≤ days.now.end) × (days.now.end ≤ day_count) }
    ensures metered { result.0 ≡ metered_by (span days.now) (A.account a.now).days day_count }
    ensures estimated { result.1 ≡ estimated_by (span days.now) (A.account a.now).days day_count }
    ensures bound { (result.0.wh + result.1.wh ≤ day_count * max_field) × (result.0.cost + result.1.cost ≤ day_count * max_field) }
{
    let mut metered = Used::default();
    let mut estimated = Used::default();
    for number in days.start..days.end {
        match a.day(number).usage {
            Usage::Blank => {}
            Usage::Estimated { wh, cost } => add_usage(&mut estimated, wh, cost),
            Usage::Metered { wh, cost } => add_usage(&mut metered, wh, cost),
        }
    }
    (metered, estimated)
}

fn charges_in(charges: &Charges, m: u32) -> KindSums
    requires { m < month_count }
    ensures { result ≡ charges_of charges.now m }
{
    let first = (CHARGE_KIND_COUNT * m) as usize;
    let mut sums = KindSums::default();
    let end = first + sums.len();
    sums.copy_from_slice(&charges[first..end]);
    sums
}

// Whether a month's sums of charges are an account's.
#[tactic(auto, unfolding(crate::specs::Summary::are_in_range))]
fn are_in_range(charges: &KindSums) -> bool
    ensures all { result ≡ are_in_range charges.now }

    // those of the average
    ensures two { result ≡ true → (get_or charges.now 0 0 ≤ max_charge_sum) × (get_or charges.now 1 0 ≤ max_charge_sum) }
{
    let [delivery, tax, reconnection, returned, other] = *charges;
    delivery <= MAX_CHARGE_SUM
        && tax <= MAX_CHARGE_SUM
        && reconnection <= MAX_CHARGE_SUM
        && returned <= MAX_CHARGE_SUM
        && other <= MAX_CHARGE_SUM
}

// Hundredths of a cent per kWh; none where no Wh were used.
fn average(cost: u64, wh: u64) -> Option<u64>
    requires { (cost ≤ max_averaged) × (wh ≤ max_averaged) }
    ensures value { average_or_0 result ≡ average_of cost wh }
    ensures missing { is_average_missing result ≡ eqb wh 0 }
{
    (cost * 100000 + wh / 2).checked_div(wh)
}

// Month m's figures, counted from the opening month, off an account however it is kept. It is refused by 1 where it is no account, then by 3 where
// none of its days lies in the month, then by 1 where one of the month's sums of charges is past any account's.
pub fn summary<A: AsAccount>(a: &A, m: u32) -> Result<Figures, Refusal>
    ensures { IsSummary (A.account a.now) m (summary_record result) }
{
    let terms = a.terms();
    let totals = a.totals();
    if !moves::is_account(terms, totals) {
        return Err(Refusal::Terms);
    }
    let Some(days) = calendar::days_of(terms.opened, m) else {
        return Err(Refusal::Limits);
    };
    let charges = charges_in(a.charges(), m);
    if !are_in_range(&charges) {
        return Err(Refusal::Terms);
    }
    let days = Range::from(days);
    let (kept, reversed) = paid_in(a, totals.count, &days);
    let (metered, estimated) = used_in(a, &days);
    let [delivery, tax, ..] = charges;
    let cost = metered.cost + estimated.cost + delivery + tax;
    Ok(Figures {
        kept,
        reversed,
        metered,
        estimated,
        charges,
        average: average(cost, metered.wh + estimated.wh),
    })
}
