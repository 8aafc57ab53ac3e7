// The lines of an event text: a line's key and its value, and a value as a number or a date. Each function reads from the start of a text and
// answers what it read with the text's rest, or none where the text breaks the form.
// It uses the calendar's date, and in its definitions the terms' `within`. Its promises cite specs/Scanner.antt, and inside the crate
// specs/Values.antt.
#![tactic(auto)]

ghost use Rattle.std.specs.Prelude.{◌≡◌};
ghost use Rattle.scanner.specs.Scanner.{IsRead, IsValueRead, read_line, read_value, number_of, read_number, read_date};
ghost use Rattle.scanner.specs.Values.{IsAfter, after_key, short, number_line, digit_of, decimal, two_digits_of, date_of};

use calendar::Date;

// ---- lines

// What stands after the key and the equals sign. It is inlined, so that a key is compared by its own length.
#[inline(always)]
#[tactic(auto, using(crate::proofs::Lines::key_steps))]
fn after_key<'a>(text: &'a [u8], key: &[u8]) -> Option<&'a [u8]>
    ensures { IsAfter (after_key key.now text.now) result }
{
    text.strip_prefix(key)?.strip_prefix(b"=")
}

// The first line, where its line feed is one of the first `most` bytes, and what follows it: no more bytes are looked at.
fn read_line(rest: &[u8], most: usize) -> Option<(&[u8], &[u8])>
    ensures { IsValueRead (short most (read_line rest.now)) result }
{
    let end = rest[..most.min(rest.len())]
        .iter()
        .position(|byte| *byte == b'\n')?;
    Some((&rest[..end], &rest[end + 1..]))
}

// The value of the first line, whose key this is to be.
#[tactic(auto, using(crate::proofs::Laws::line_short), unfolding(crate::specs::Scanner::read_value))]
pub fn read_value<'a>(text: &'a [u8], key: &[u8]) -> Option<(&'a [u8], &'a [u8])>
    ensures { IsValueRead (read_value key.now text.now) result }
{
    let rest = after_key(text, key)?;
    read_line(rest, rest.len())
}

// ---- numbers

fn digit(byte: u8) -> Option<u32>
    ensures { result ≡ digit_of byte }
{
    char::from(byte).to_digit(10)
}

// The number that some digits make, none where it is above 4,294,967,295. (std's `parse`,
// which takes a plus sign too, was tried behind `from_utf8`: `prepay` is slower than the Rust program with it, docs/DESIGN-PASS.md, "Measured".)
#[tactic(auto, using(crate::proofs::Numbers::digit_steps))]
fn decimal(digits: &[u8]) -> Option<u32>
    ensures { result ≡ decimal digits.now }
{
    let mut number: u32 = 0;
    for byte in digits {
        number = number.checked_mul(10)?.checked_add(digit(*byte)?)?;
    }
    Some(number)
}

// "digits without sign or leading zero, zero being `0`": of a line's value, or of a program's argument.
#[tactic(auto, unfolding(crate::specs::Scanner::number_of, crate::specs::Values::decimal, crate::specs::Scanner::is_number))]
pub fn number_of(value: &[u8]) -> Option<u32>
    ensures { result ≡ number_of value.now }
{
    match value {
        [] | [b'0', _, ..] => None,
        _ => decimal(value),
    }
}

// A number has at most ten digits, so its line feed is one of eleven bytes.
const NUMBER_ROOM: usize = 11;

// The number that the first line is, and what follows it. A longer line is refused without looking for its end.
// It is not inlined: in the reading of an event's fields its loops would be laid out worse.
#[inline(never)]
#[tactic(auto, using(crate::proofs::Laws::number_short), unfolding(crate::specs::Values::number_line, crate::specs::Scanner::number_of))]
fn number_line(rest: &[u8]) -> Option<(u32, &[u8])>
    ensures { IsRead (number_line rest.now) result }
{
    let (value, rest) = read_line(rest, NUMBER_ROOM)?;
    Some((number_of(value)?, rest))
}

#[inline(always)]
#[tactic(auto, unfolding(crate::specs::Values::number_line, crate::specs::Scanner::read_number, crate::specs::Scanner::read_value))]
pub fn read_number<'a>(text: &'a [u8], key: &[u8]) -> Option<(u32, &'a [u8])>
    ensures { IsRead (read_number key.now text.now) result }
{
    number_line(after_key(text, key)?)
}

// ---- dates

// The number of two digits.
fn two_digits(tens: u8, units: u8) -> Option<u32>
    ensures { result ≡ two_digits_of tens units }
{
    Some(digit(tens)? * 10 + digit(units)?)
}

// "Dates are YYYY-MM-DD": any digits.
#[tactic(auto, unfolding(crate::specs::Values::date_of, crate::specs::Scanner::is_date_form, crate::specs::Scanner::date_value))]
fn date_of(value: &[u8]) -> Option<Date>
    ensures { result ≡ date_of value.now }
{
    let [y0, y1, y2, y3, b'-', m0, m1, b'-', d0, d1] = *value else {
        return None;
    };
    let century = two_digits(y0, y1)?;
    let years = two_digits(y2, y3)?;
    let month = two_digits(m0, m1)?;
    let day = two_digits(d0, d1)?;
    let year = century * 100 + years;
    Some(Date { year, month, day })
}

// One function over the conversion, for numbers and dates, would be no shorter, and its contract would speak of a closure's.
#[tactic(auto, unfolding(crate::specs::Scanner::read_date, crate::specs::Values::date_of))]
pub fn read_date<'a>(text: &'a [u8], key: &[u8]) -> Option<(Date, &'a [u8])>
    ensures { IsRead (read_date key.now text.now) result }
{
    let (value, rest) = read_value(text, key)?;
    Some((date_of(value)?, rest))
}
