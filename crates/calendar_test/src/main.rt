// The calendar's answers to the questions of the file stdin, which says how they are written.
// The file stdout has the answers: to `all` those of Python's datetime (make_vectors.py), to the others worked out by hand.
// It uses the calendar.
#![tactic(auto)]

use calendar::{Date, MONTH_COUNT, Weekday};
use std::io;
use std::io::{BufWriter, Read, Write};

// What the file stdout has where there is no weekday; for no month it has `MONTH_COUNT`, and 0 and 0 for a month without days.
const NO_WEEKDAY: u32 = 7;

// Year, month and day as one number, as the file stdout has a date.
fn number_of(d: Date) -> u64 {
    u64::from(d.year) * 10000 + u64::from(d.month) * 100 + u64::from(d.day)
}

// The date that such a number is, or is not.
fn date(n: u32) -> Date {
    Date {
        year: n / 10000,
        month: n / 100 % 100,
        day: n % 100,
    }
}

fn weekday_number(w: Option<Weekday>) -> u32 {
    w.map_or(NO_WEEKDAY, u32::from)
}

// The answers about an opening date, and where they go.
#[derive(Drop)]
struct Answers<'a, W> {
    out: &'a mut W,
    opened: Date,
}

impl<W: Write> Answers<'_, W> {
    fn exists(&mut self, d: Date) -> io::Result<()> {
        let is_date = u8::from(d.exists());
        let can_open = u8::from(calendar::can_open(d));
        write!(self.out, " {is_date} {can_open}")
    }

    // A number, or that there is none.
    fn say(&mut self, n: Option<u64>) -> io::Result<()> {
        match n {
            Some(n) => write!(self.out, " {n}"),
            None => write!(self.out, " outside"),
        }
    }

    fn day(&mut self, k: u32) -> io::Result<()> {
        self.say(calendar::date_of(self.opened, k).map(number_of))?;
        let weekday = weekday_number(calendar::weekday_of(self.opened, k));
        let month = calendar::month_of(self.opened, k).unwrap_or(MONTH_COUNT);
        write!(self.out, " {weekday} {month}")
    }

    fn number(&mut self, d: Date) -> io::Result<()> {
        self.say(calendar::day_of(self.opened, d).map(u64::from))
    }

    fn month(&mut self, m: u32) -> io::Result<()> {
        let days = calendar::days_of(self.opened, m);
        let (from, to) = days.map_or((0, 0), |days| (days.from, days.to));
        write!(self.out, " {from} {to}")
    }

    fn all(&mut self, k: u32, d: Date, m: u32) -> io::Result<()> {
        self.exists(self.opened)?;
        self.exists(d)?;
        self.day(k)?;
        self.number(d)?;
        self.month(m)?;
        let next = number_of(d.next());
        let weekday = weekday_number(d.weekday());
        write!(self.out, " {next} {weekday} {}", d.month_from(self.opened))
    }
}

// The number with one digit more, of nine at most; another byte, as the minus of a date, is passed over.
fn with_digit(n: u32, byte: u8) -> u32 {
    match byte {
        b'0'..=b'9' => n % 100_000_000 * 10 + u32::from(byte - b'0'),
        _ => n,
    }
}

// The numbers that a line's five words are, 0 past the line's end: the questions are of any numbers. A sixth word goes on with the first's
// number. (account_test has the like for its words: a crate for the two would be no shorter.)
fn numbers(line: &[u8]) -> [u32; 5] {
    let mut numbers = [0; 5];
    for (i, word) in line.split(|byte| *byte == b' ').enumerate() {
        let n = numbers[i % 5];
        numbers[i % 5] = word.iter().fold(n, |n, byte| with_digit(n, *byte));
    }
    numbers
}

// A word is known by its first letter. Each question takes numbers of its own, so a `match` is plainer than a closure for each.
fn ask(out: &mut impl Write, letter: u8, line: &[u8]) -> io::Result<()> {
    let [_, opened, second, third, fourth] = numbers(line);
    let opened = date(opened);
    let mut answers = Answers { out, opened };
    match letter {
        b'e' => answers.exists(opened),
        b'd' => answers.day(second),
        b'n' => answers.number(date(second)),
        b'm' => answers.month(second),
        _ => answers.all(second, date(third), fourth),
    }
}

// The question, and the answers to it. A line that starts with `#` is a remark.
fn one(out: &mut impl Write, line: &[u8]) -> io::Result<()> {
    match line {
        [] | [b'#', ..] => Ok(()),
        [letter, ..] => {
            out.write_all(line)?;
            write!(out, ":")?;
            ask(out, *letter, line)?;
            writeln!(out)
        }
    }
}

// The questions are the lines of the first 65,536 bytes of standard input; a last one without its end is none. (For these two lines a crate of
// the programs would be no shorter.)
fn main(rt: HostRuntime) -> io::Result<()> {
    let mut text = Vec::new(rt.alloc());
    rt.reader().take(65536).read_to_end(&mut text)?;
    let mut out = BufWriter::new(rt.alloc(), io::writer(&rt))?;
    for line in text.split_inclusive(|byte| *byte == b'\n') {
        if let Some(line) = line.strip_suffix(b"\n") {
            one(&mut out, line)?;
        }
    }
    out.flush()
}
