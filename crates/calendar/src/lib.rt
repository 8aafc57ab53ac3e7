// The Gregorian calendar of an account: dates, weekdays and months of its days 0 to 399.
// It uses nothing else. Its promises cite specs/Calendar.antt.
#![tactic(auto)]

ghost use Rattle.std.specs.Prelude.{◌≡◌, true, ◌+◌, ◌-◌, ◌*◌, ◌≤◌, ◌<◌, nat_le};
ghost use Rattle.calendar.specs.Calendar.{leap_year, month_length, date_exists, first_year, last_year, end_year, is_date_until, opens, is_in_reach};
ghost use Rattle.calendar.specs.Calendar.{total, length_after, months_after, days_after, month_from};
ghost use Rattle.calendar.specs.Calendar.{saturday, weekday_number, weekday_or_none, weekday_after};
ghost use Rattle.calendar.specs.Calendar.{next_answer, weekday_answer, month_count, date_answer, weekday_on, month_answer, DayAnswer, range_of, MonthAnswer};
ghost use Rattle.calendar.specs.Work.{days_before, year_length, InMonth, InYear, month_start};

use std::ops::Range;

#[repr(C)]
#[derive(Clone, Copy, Debug, PartialEq, Eq, Default)]
pub struct Date {
    pub year: u32,
    pub month: u32,
    pub day: u32,
}

// "k from 0 to 399", and the months that those days can touch.
pub const FINAL_DAY: u32 = 399;

pub const DAY_COUNT: u32 = FINAL_DAY + 1;

pub const MONTH_COUNT: u32 = 15;

// "years 2000 to 2099": the years in which an account can open, and the year in which the last account ends.
pub const FIRST_YEAR: u32 = 2000;

pub const LAST_YEAR: u32 = 2099;

const END_YEAR: u32 = LAST_YEAR + 2;

#[derive(Clone, Copy, Debug, PartialEq, Eq)]
pub enum Weekday {
    Monday,
    Tuesday,
    Wednesday,
    Thursday,
    Friday,
    Saturday,
    Sunday,
}

// The weekdays' numbers, by which the marks count: Monday is 0. (By `as`, as a constant calls no `from`.)
pub const SATURDAY: u32 = Weekday::Saturday as u32;

pub const SUNDAY: u32 = Weekday::Sunday as u32;

// "1 ≤ x − w ≤ 7": for so many days after its own a warning serves.
pub const WARNING_DAYS: u32 = 7;

// 0 for Monday to 6 for Sunday, which `as` gives of an enum.
impl From<Weekday> for u32 {
    ghost from_gives = { λ w n. n ≡ weekday_number w };

    fn from(weekday: Weekday) -> u32 {
        weekday as u32
    }
}

// Days `from` to the day before `to`.
#[derive(Clone, Copy, Debug, PartialEq, Eq)]
pub struct Days {
    pub from: u32,
    pub to: u32,
}

// For what goes through them: a `Range` is no `Copy`.
impl From<Days> for Range<u32> {
    ghost from_gives = { λ d r. r ≡ range_of d };

    fn from(days: Days) -> Range<u32> {
        days.from..days.to
    }
}

impl Weekday {
    pub fn is_weekend(self) -> bool
        ensures { result ≡ nat_le saturday (weekday_number self) }
    {
        self == Weekday::Saturday || self == Weekday::Sunday
    }
}

fn leap(year: u32) -> bool
    ensures { result ≡ leap_year year }
{
    year % 4 == 0 && (year % 100 != 0 || year % 400 == 0)
}

// Any other number is no month, and has no days.
#[tactic(auto, unfolding(crate::specs::Calendar::month_length))]
fn month_length(year: u32, month: u32) -> u32
    ensures { result ≡ month_length year month }
{
    match month {
        1 | 3 | 5 | 7 | 8 | 10 | 12 => 31,
        4 | 6 | 9 | 11 => 30,
        2 => if leap(year) { 29 } else { 28 },
        _ => 0,
    }
}

// The days of a common year before a month.
const BEFORE: [u32; 13] = [0, 0, 31, 59, 90, 120, 151, 181, 212, 243, 273, 304, 334];

// The days of the year before a month.
fn days_before(leap: bool, month: u32) -> u32
    requires { month ≤ 12 }
    ensures { result ≡ days_before leap month }
{
    // `as`, since u32 has no `From` into usize
    BEFORE[month as usize] + u32::from(leap && month > 2)
}

// The days from 2000-01-01 to 1 January of the year n years later: 2100 is no leap year.
#[tactic(auto, using(crate::proofs::Years::years_sum))]
fn years_before(n: u32) -> u32
    requires { n ≤ end_year + 1 - first_year }
    ensures { result ≡ total length_after (12 * n) }
{
    n * 365 + (n + 3) / 4 - u32::from(n > 100)
}

// The days from 2000-01-01 to the first of the month i months after January 2000.
#[tactic(auto, using(crate::proofs::Years::month_total, crate::proofs::Laws::sum_limit))]
fn month_after(i: u32) -> u32
    requires { i < 12 * (end_year + 1 - first_year) }
    ensures { result ≡ total length_after i }
{
    let n = i / 12;
    years_before(n) + days_before(leap(FIRST_YEAR + n), i % 12 + 1)
}

// How many months after January 2000 the date's month is.
#[tactic(auto, using(crate::proofs::Laws::reached))]
fn months_after(d: Date) -> u32
    requires { is_in_reach d ≡ true }
    ensures { result ≡ months_after d }
{
    12 * (d.year - FIRST_YEAR) + (d.month - 1)
}

#[tactic(auto, using(crate::proofs::Laws::reached, crate::proofs::Laws::days_limit), unfolding(crate::specs::Calendar::days_after))]
fn days_after(d: Date) -> u32
    requires { is_in_reach d ≡ true }
    ensures { result ≡ days_after d }
{
    month_after(months_after(d)) + (d.day - 1)
}

// Whether it is a date of the years 2000 to `last`.
#[tactic(auto, unfolding(crate::specs::Calendar::is_date_until))]
fn is_date_until(d: Date, last: u32) -> bool
    ensures { result ≡ is_date_until last d }
{
    (FIRST_YEAR..=last).contains(&d.year) && d.exists()
}

#[tactic(auto, unfolding(crate::specs::Calendar::is_in_reach))]
fn in_reach(d: Date) -> bool
    ensures { result ≡ is_in_reach d }
{
    is_date_until(d, END_YEAR)
}

// Whether the date can open an account.
#[tactic(auto, unfolding(crate::specs::Calendar::opens))]
pub fn can_open(d: Date) -> bool
    ensures { result ≡ opens d }
{
    is_date_until(d, LAST_YEAR)
}

// The weekday n days after 2000-01-01, which was a Saturday: no conversion, since n counts days.
#[tactic(auto, using(crate::proofs::Laws::weekdays))]
fn weekday_after(n: u32) -> Weekday
    ensures { weekday_number result ≡ weekday_after n }
{
    match n % 7 {
        0 => Weekday::Saturday,
        1 => Weekday::Sunday,
        2 => Weekday::Monday,
        3 => Weekday::Tuesday,
        4 => Weekday::Wednesday,
        5 => Weekday::Thursday,
        _ => Weekday::Friday,
    }
}

impl Date {
    // Whether the calendar has it.
    #[tactic(auto, unfolding(crate::specs::Calendar::date_exists))]
    pub fn exists(self) -> bool
        ensures { result ≡ date_exists self.year self.month self.day }
    {
        (1..=month_length(self.year, self.month)).contains(&self.day)
    }

    // The day after. A record out of reach is answered itself: a function that cannot fail may not come to.
    #[tactic(auto, using(crate::proofs::Laws::reached), unfolding(crate::specs::Calendar::next_of))]
    pub fn next(self) -> Date
        ensures { result ≡ next_answer self }
    {
        if !in_reach(self) {
            return self;
        }
        if self.day < month_length(self.year, self.month) {
            return Date {
                day: self.day + 1,
                ..self
            };
        }
        if self.month < 12 {
            return Date {
                month: self.month + 1,
                day: 1,
                ..self
            };
        }
        Date {
            year: self.year + 1,
            month: 1,
            day: 1,
        }
    }

    // None of a record that is no date from 2000 to 2101.
    #[tactic(auto, unfolding(crate::specs::Calendar::weekday_of))]
    pub fn weekday(self) -> Option<Weekday>
        ensures { weekday_or_none result ≡ weekday_answer self }
    {
        if !in_reach(self) {
            return None;
        }
        Some(weekday_after(days_after(self)))
    }

    // The number of the date's month, counted from that of the opening date; 0 of an earlier one: a function that cannot fail may not come to.
    #[tactic(auto, unfolding(crate::specs::Calendar::month_from))]
    pub fn month_from(self, opened: Date) -> u64
        ensures { result ≡ month_from opened self }
    {
        let at = 12 * u64::from(self.year) + u64::from(self.month);
        at.saturating_sub(12 * u64::from(opened.year) + u64::from(opened.month))
    }
}

#[tactic(auto, unfolding(crate::specs::Work::year_length))]
fn year_length(year: u32) -> u32
    ensures { result ≡ year_length year }
{
    if leap(year) { 366 } else { 365 }
}

// The month in which a day of a year lies: month `left / 32 + 1` or the one after.
#[tactic(auto, using(crate::proofs::Years::guess, crate::proofs::Years::guess_next, crate::proofs::Years::guess_last))]
fn month_in(leap: bool, left: u32) -> u32
    requires { left < days_before leap 13 }
    ensures { InMonth leap left result }
{
    let m = left / 32 + 1;
    if m < 12 && days_before(leap, m + 1) <= left {
        m + 1
    } else {
        m
    }
}

// The date of a day of a year.
#[tactic(auto, using(crate::proofs::Years::in_year, crate::proofs::Years::year_whole, crate::proofs::Years::year_range))]
fn date_in(year: u32, left: u32) -> Date
    requires { left < year_length year }
    ensures { InYear year left result }
{
    let l = leap(year);
    let month = month_in(l, left);
    Date {
        year,
        month,
        day: left - days_before(l, month) + 1,
    }
}

// The date of day k. (Here and below the opening date and the day are two parameters, as the paper has them: of a struct of both a method would
// read the same.)
#[tactic(auto, using(crate::proofs::Years::opened, crate::proofs::Years::year_taken, crate::proofs::Years::year_range))]
pub fn date_of(opened: Date, k: u32) -> Option<Date>
    ensures { result ≡ date_answer opened k }
{
    if !can_open(opened) || k > FINAL_DAY {
        return None;
    }
    // No index: whole years are taken out while one is left.
    let mut year = opened.year;
    let mut left = days_before(leap(year), opened.month) + (opened.day - 1) + k;
    while left >= year_length(year) {
        left -= year_length(year);
        year += 1;
    }
    Some(date_in(year, left))
}

// The weekday of day k.
#[tactic(auto, using(crate::proofs::Laws::answer_weekday))]
pub fn weekday_of(opened: Date, k: u32) -> Option<Weekday>
    ensures { weekday_or_none result ≡ weekday_on opened k }
{
    date_of(opened, k)?.weekday()
}

// The number of day k's month, 0 for the opening month to 14, so that `as` loses nothing.
#[tactic(auto, using(crate::proofs::Laws::answer_month))]
pub fn month_of(opened: Date, k: u32) -> Option<u32>
    ensures { result ≡ month_answer opened k }
{
    Some(date_of(opened, k)?.month_from(opened) as u32)
}

// Which day a date is.
#[tactic(auto, using(crate::proofs::Laws::opens_reached))]
pub fn day_of(opened: Date, d: Date) -> Option<u32>
    ensures { DayAnswer opened d result }
{
    if !can_open(opened) || !in_reach(d) {
        return None;
    }
    let k = days_after(d).checked_sub(days_after(opened))?;
    (k <= FINAL_DAY).then_some(k)
}

// The first of days 0 to 399 that lies in month m or later, or 400.
#[tactic(auto, using(crate::proofs::Laws::opens_reached), unfolding(crate::specs::Work::month_start))]
fn month_start(opened: Date, m: u32) -> u32
    requires { (opens opened ≡ true) × (m ≤ month_count) }
    ensures { result ≡ month_start opened m }
{
    month_after(months_after(opened) + m)
        .saturating_sub(days_after(opened))
        .min(DAY_COUNT)
}

// The days of month m, counted from the opening month, where it has any.
pub fn days_of(opened: Date, m: u32) -> Option<Days>
    ensures { MonthAnswer opened m result }
{
    if !can_open(opened) || m >= MONTH_COUNT {
        return None;
    }
    let from = month_start(opened, m);
    let to = month_start(opened, m + 1);
    (from < to).then_some(Days { from, to })
}
