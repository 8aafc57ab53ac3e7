// One byte of marks a day, and one of warnings: setting, testing and searching them.
// It uses the calendar. Its promises cite specs/Marks.antt.
#![tactic(auto)]

ghost use Rattle.std.specs.Prelude.{◌≡◌, ◌+◌, ◌-◌, ◌≤◌, ◌<◌};
ghost use Rattle.marks.specs.Marks.{mark_bit, day_before, marked, barring_on, latest_warning, weather_near};

use calendar::{DAY_COUNT, FINAL_DAY, SATURDAY, SUNDAY, WARNING_DAYS};

// A byte for each day: of marks, as document 01 names the form ("One byte per day; setting a mark is an or with its bit, barred is a mask
// test"); or of warnings, 0 or 1, which is a byte in C's record too. A day is cast to an index, since u32 has no `From` into usize.
pub type DayBytes = [u8; DAY_COUNT as usize];

// The bit of a mark kind in a day's byte. A kind is an event's number, of which C hands in any; one that is no kind has no bit.
fn mark_bit(kind: u32) -> u8
    ensures { result ≡ mark_bit kind }
{
    match kind {
        1 => 1,
        2 => 2,
        3 => 4,
        0 | 4.. => 0,
    }
}

// Sets the kind's mark from day `from` to day `to`, as the event has them.
#[tactic(auto, using(crate::proofs::Turns::mark_none), unfolding(crate::specs::Marks::marked))]
pub fn set(marks: &mut DayBytes, kind: u32, from: u32, to: u32)
    ensures { marks.new ≡ marked marks.old kind from to }
{
    if to > FINAL_DAY || from > to {
        return;
    }
    let bit = mark_bit(kind);
    for byte in marks[from as usize..=to as usize].iter_mut() {
        *byte |= bit;
    }
}

// Whether a mark bars a disconnect on the day.
#[tactic(auto, unfolding(crate::specs::Marks::barring_on))]
pub fn barring(marks: &DayBytes, day: u32) -> bool
    ensures { result ≡ barring_on marks.now day }
{
    day <= FINAL_DAY && marks[day as usize] & 7 != 0
}

// The newest warning of the seven days before the day. Document 01 names the form: "Backward loop over seven days that yields the found day
// by break, or none."
#[tactic(auto, using(crate::proofs::Turns::latest_end, crate::proofs::Turns::latest_turn, crate::proofs::Turns::latest_past, crate::proofs::Turns::latest_back), unfolding(crate::specs::Marks::latest_warning))]
pub fn latest(warned: &DayBytes, day: u32) -> Option<u32>
    ensures { result ≡ latest_warning warned.now day }
{
    if day > FINAL_DAY {
        return None;
    }
    let first = day.saturating_sub(WARNING_DAYS);
    let mut d = day;
    loop {
        if d == first {
            break None;
        }
        d -= 1;
        if warned[d as usize] == 1 {
            break Some(d);
        }
    }
}

// The weekday before.
fn day_before(weekday: u32) -> u32
    ensures { result ≡ day_before weekday }
{
    if weekday == 0 { SUNDAY } else { weekday - 1 }
}

// Whether a weather day lies so near before or on the day that at most one business day has come since.
// The day's weekday is any number, as callers may give one: a `Weekday` would ask more of them.
#[tactic(auto, unfolding(crate::specs::Marks::weather_near))]
pub fn weather_near(marks: &DayBytes, weekday: u32, day: u32) -> bool
    ensures { result ≡ weather_near marks.now weekday day }
{
    if day > FINAL_DAY {
        return false;
    }
    let mut w = weekday;
    let mut left: u32 = 1;
    for byte in marks[..=day as usize].iter().rev() {
        if *byte & 1 != 0 {
            return true;
        }
        if w < SATURDAY {
            if left == 0 {
                return false;
            }
            left -= 1;
        }
        w = day_before(w);
    }
    false
}
