// The posting calls and the readings, at both sides of every limit of document 01 and of document 02's T-01.
// The file stdin has the cases, and says how they are written. The file stdout has its lines again, and after a case's colon the answers:
// these are worked out from the paper by hand, and none is copied from a run.
// It uses the calendar's date, the terms, the ledger's event and refusals, the moves' totals, the account, and the posting and the reading calls.
#![tactic(auto)]

ghost use Rattle.ledger.specs.Refusals.{code_of};
ghost use Rattle.posting.specs.Posting.{PostsRow};

use account::Account;
use calendar::Date;
use ledger::{Answer, Event, Refusal, code};
use moves::Totals;
use std::io;
use std::io::Read;
use terms::Terms;

// A line's words and numbers by their places: its word, an event's nine numbers, a second word and its number, and one that nothing asks for.
type Places = [u32; 13];

// The words of the sorts, 1 to 11.
const SORTS: [&str; 11] = [
    "pay",
    "reverse",
    "credit",
    "charge",
    "estimate",
    "read",
    "warn",
    "mark",
    "plan",
    "disconnect",
    "connect",
];

// The sort of `price`.
const PRICE: u32 = 12;

// A sort that no event has.
const NO_SORT: u32 = 99;

// The code that is said where the codes of several events differ.
const NO_CODE: u8 = 99;

// ---- what a line says

// The word or number with one byte more: of a word its first three letters, of a number as many digits as 32 bits have.
fn with_byte(n: u32, byte: u8) -> u32 {
    match byte {
        b'a'.. if n < 65536 => n * 256 + u32::from(byte),
        b'0'..=b'9' => {
            let digit = u32::from(byte - b'0');
            let longer = n.checked_mul(10).and_then(|tens| tens.checked_add(digit));
            longer.unwrap_or(n)
        }
        _ => n,
    }
}

// A word or a number as a number; 0 of neither. A word is known by its first three letters.
fn number_of(word: &[u8]) -> u32 {
    word.iter().fold(0, |n, byte| with_byte(n, *byte))
}

// A second word has the place 10, a number the place after the one before it: a line may leave out the fields that its sort does not name, which
// are 0. (calendar_test has the like for its numbers: a crate for the two would be no shorter.)
fn numbers(part: &[u8]) -> Places {
    let mut numbers = [0; 13];
    let mut at = 0;
    for (i, word) in part.split(|byte| *byte == b' ').enumerate() {
        at = match word {
            [] => continue,
            _ if i == 0 => 0,
            [(b'a'..), ..] => 10,
            _ => at % 12 + 1,
        };
        numbers[at] = number_of(word);
    }
    numbers
}

fn terms(numbers: Places) -> Terms {
    let [_, year, month, day, price, connect, cutoff, share, ..] = numbers;
    Terms {
        opened: Date { year, month, day },
        price,
        connect,
        cutoff,
        share,
    }
}

// An event of any sort and fields.
fn any_event(numbers: Places) -> Event {
    let [_, sort, day, amount, number, kind, usage, wh, from, to, ..] = numbers;
    Event {
        sort,
        day,
        amount,
        number,
        kind,
        usage,
        wh,
        from,
        to,
    }
}

// An event of a named sort, of its day and the numbers after it. A number is given to every field that it is for some sort: an event is
// judged by the fields of its own sort alone.
fn named_event(sort: u32, numbers: Places) -> Event {
    let [_, day, first, second, third, ..] = numbers;
    Event {
        sort,
        day,
        amount: if sort == 4 { second } else { first },
        number: first,
        kind: first,
        usage: first,
        wh: second,
        from: second,
        to: third,
    }
}

// The sort that a line's word names. `price` is known by the whole word: another that begins so is no sort.
fn sort_of(part: &[u8], word: u32) -> u32 {
    if part.starts_with(b"price ") {
        return PRICE;
    }
    let place = SORTS
        .iter()
        .position(|sort| number_of(sort.as_bytes()) == word);
    match place {
        // a place below 11: usize has no `From` into u32
        Some(place) => place as u32 + 1,
        None => NO_SORT,
    }
}

fn event(part: &[u8], numbers: Places) -> Event {
    let [word, ..] = numbers;
    if word == number_of(b"event") {
        return any_event(numbers);
    }
    named_event(sort_of(part, word), numbers)
}

// The totals that are asked: after a refusal those before it; an accepted event counts once, by its day, and as a payment if it is a pay.
fn asked(answer: Answer, e: Event, before: Totals, after: Totals) -> Totals {
    if answer.code != 0 {
        return before;
    }
    Totals {
        count: before.count.saturating_add(u32::from(e.sort == 1)),
        events: before.events.saturating_add(1),
        last: e.day,
        ..after
    }
}

// ---- rows

// The row by value, lent to the call; the promise is the call's own.
fn row_of<const N: usize>(a: &mut Account, row: [Event; N], codes: &mut [u8]) -> Result<(), Refusal>
    ensures { PostsRow a.old row.entry codes.old a.new codes.new (code_of result) }
{
    posting::post_row(a, &row, codes)
}

// Pay 6000, connect, a credit of nothing, pay 4000, connect again, all on day 0.
fn five() -> [Event; 5] {
    let of = |sort: u32, amount: u32| Event {
        sort,
        amount,
        ..Event::default()
    };
    [of(1, 6000), of(11, 0), of(3, 0), of(1, 4000), of(11, 0)]
}

// ---- a line

// A line: the account that it is for, whether it is a case, and where a case's answers go.
#[derive(Drop)]
struct Line<'a, P> {
    rt: &'a P,
    account: &'a mut Account,
    is_case: bool,
}

impl<P: Print> Line<'_, P> {
    fn say_sums(&self) -> io::Result<()> {
        let s = self.account.totals;
        print!(self.rt; " {} {}", readings::balance(s), readings::plan(s))
    }

    // Service and the other readings.
    fn say_readings(&self) -> io::Result<()> {
        let s = self.account.totals;
        let service = if readings::service(s) { "on" } else { "off" };
        print!(self.rt; " {service}")?;
        self.say_sums()?;
        print!(self.rt; " {} {}", readings::settled(s), readings::estimates(s))
    }

    fn compare(&self, s: Totals) -> io::Result<()> {
        if self.account.totals == s {
            return Ok(());
        }
        print!(self.rt; " with other totals")
    }

    // Where the terms are refused there is no account: each event of the record gets 1. A fresh account has every total 0, and service off.
    fn open(&mut self, t: Terms) -> io::Result<()> {
        let opening = account::open(t);
        *self.account = opening.unwrap_or(Account::fresh(t));
        if !self.is_case {
            return Ok(());
        }
        print!(self.rt; " {}", code(opening))?;
        self.compare(Totals::default())
    }

    // Posts n events, and one at least, the first by value. The answer has the value of the last, and the code of all, or one that no line asks.
    fn post_often<F: Fn(u32) -> Event>(&mut self, n: u32, event: F) -> Answer
        requires { F.IsAlwaysCallable event }
    {
        let first = posting::post_by_value(*self.account, event(0));
        *self.account = first.account;
        let mut answer = Answer::from(first.answer);
        for i in 1..n {
            let next = Answer::from(posting::post(self.account, event(i)));
            let code = if next.code == answer.code {
                next.code
            } else {
                NO_CODE
            };
            answer = Answer { code, ..next };
        }
        answer
    }

    // Posts the event as often as the line says, with `each` with each payment number, and usage day, from 0 on. Without a second word it is held
    // to its value too, and to the totals after it.
    fn post(&mut self, e: Event, numbers: Places) -> io::Result<()> {
        let [.., way, times, _] = numbers;
        let before = self.account.totals;
        let answer = if way == number_of(b"each") {
            let numbered = |i: u32| Event {
                number: i,
                usage: i,
                ..e
            };
            self.post_often(times, numbered)
        } else {
            self.post_often(times, |_| e)
        };
        if !self.is_case {
            return Ok(());
        }
        print!(self.rt; " {}", answer.code)?;
        if way != 0 {
            return self.say_sums();
        }
        print!(self.rt; " {}", answer.value)?;
        self.say_sums()?;
        self.compare(asked(answer, e, before, self.account.totals))
    }

    // A row of five events or of none, and a buffer of so many bytes, 8 at most, each of them 7.
    fn post_row(&mut self, numbers: Places) -> io::Result<()> {
        let [_, events, bytes, ..] = numbers;
        let mut buffer = [7; 8];
        // (by `as`: u32 has no `From` into usize)
        let Some(codes) = buffer.get_mut(..bytes as usize) else {
            return Ok(());
        };
        let answer = if events == 0 {
            row_of(self.account, [], codes)
        } else {
            row_of(self.account, five(), codes)
        };
        print!(self.rt; " {}", code(answer))?;
        for code in codes {
            print!(self.rt; " {code}")?;
        }
        let s = self.account.totals;
        print!(self.rt; " {} {}", s.count, s.events)?;
        self.say_readings()
    }
}

// ---- the text

// A part of the text: a line, or a case up to its colon. A remark and a heading begin with no word.
fn one(rt: &impl Print, account: &mut Account, part: &[u8]) -> io::Result<()> {
    rt.write_all(part)?;
    let is_case = part.ends_with(b":");
    let numbers = numbers(part);
    let [word, ..] = numbers;
    let mut line = Line {
        rt,
        account,
        is_case,
    };
    // Each word takes numbers of its own, so a `match` is plainer than a closure for each.
    match word {
        0 => Ok(()),
        _ if word == number_of(b"terms") => line.open(terms(numbers)),
        _ if word == number_of(b"row") => line.post_row(numbers),
        _ if word == number_of(b"totals") => line.say_readings(),
        _ => line.post(event(part, numbers), numbers),
    }
}

// The cases are the parts of the first 65,536 bytes of standard input; a last one without its end is none. (For these two lines a crate of the
// programs would be no shorter.)
fn main(rt: HostRuntime) -> io::Result<()> {
    let mut text = Vec::new(rt.alloc());
    rt.reader().take(65536).read_to_end(&mut text)?;
    let mut account = Account::fresh(Terms::default());
    for part in text.split_inclusive(|byte| matches!(*byte, b'\n' | b':')) {
        if matches!(part, [.., b'\n' | b':']) {
            one(&rt, &mut account, part)?;
        }
    }
    Ok(())
}
