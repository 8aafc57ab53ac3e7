// Event text: the terms and one event, read from its lines. Each function reads from the start of a text and answers what it read with the text's
// rest, or none where the text breaks the form.
// `form_of` says of a whole text whether it keeps the form, and where it breaks it.
// It uses the scanner of the lines, the ledger's event, the terms and the calendar's date. Its promises cite specs/Text.antt and specs/Form.antt,
// and inside the crate specs/Words.antt.
#![tactic(auto)]

ghost use Rattle.std.specs.Prelude.{◌≡◌, ◌+◌, ◌≤◌, length, IfSome};
ghost use Rattle.scanner.specs.Scanner.{IsRead};
ghost use Rattle.text.specs.Text.{max_text, read_terms, terms_in, sorts, fields_in, read_sort, read_fields, read_event};
ghost use Rattle.text.specs.Form.{line_after, EventsSuffice, form_of};
ghost use Rattle.text.specs.Words.{sort_of};

use ledger::Event;
use terms::Terms;

// The bytes of the longest text.
pub const MAX_TEXT: usize = 65536;

// ---- the terms

#[tactic(auto, unfolding(crate::specs::Text::read_terms))]
fn read_terms(text: &[u8]) -> Option<(Terms, &[u8])>
    ensures { IsRead (read_terms text.now) result }
{
    let (opened, rest) = scanner::read_date(text, b"open")?;
    let (price, rest) = scanner::read_number(rest, b"price")?;
    let (connect, rest) = scanner::read_number(rest, b"connect")?;
    let (cutoff, rest) = scanner::read_number(rest, b"cutoff")?;
    let (share, rest) = scanner::read_number(rest, b"share")?;
    let terms = Terms {
        opened,
        price,
        connect,
        cutoff,
        share,
    };
    Some((terms, rest))
}

// The terms of a text, with its rest; none where they break their form, or where the text is too long.
pub fn terms_in(text: &[u8]) -> Option<(Terms, &[u8])>
    ensures read { IsRead (terms_in text.now) result }
    ensures within { IfSome result (λ p. (length p.1.now ≤ length text.now) × (length text.now ≤ max_text)) }
{
    if text.len() > MAX_TEXT {
        return None;
    }
    read_terms(text)
}

// ---- the sort of an event

// The sort that a word names: a `match`, in which each word and its number are a line.
#[tactic(auto, using(crate::proofs::Words::other_words), unfolding(crate::specs::Words::sort_of, crate::specs::Text::sort_in, scanner::specs::Scanner::same))]
fn sort_of(word: &[u8]) -> Option<u32>
    ensures { result ≡ sort_of word.now }
{
    match word {
        b"pay" => Some(1),
        b"reverse" => Some(2),
        b"credit" => Some(3),
        b"charge" => Some(4),
        b"estimate" => Some(5),
        b"read" => Some(6),
        b"warn" => Some(7),
        b"mark" => Some(8),
        b"plan" => Some(9),
        b"disconnect" => Some(10),
        b"connect" => Some(11),
        b"price" => Some(12),
        _ => None,
    }
}

#[tactic(auto, unfolding(crate::specs::Words::sort_of, crate::specs::Text::read_sort))]
fn read_sort(text: &[u8]) -> Option<(u32, &[u8])>
    ensures { IsRead (read_sort text.now) result }
{
    let (word, rest) = scanner::read_value(text, b"do")?;
    Some((sort_of(word)?, rest))
}

// ---- an event

// The event with the fields that its sort names: a `match` on the sort, a number as in the event, in which the rule of each sort is a line.
#[tactic(auto, unfolding(crate::specs::Text::read_fields))]
fn read_fields(text: &[u8], event: Event) -> Option<(Event, &[u8])>
    ensures { IsRead (read_fields (fields_in sorts event.sort) event text.now) result }
{
    let mut event = event;
    let mut rest = text;
    match event.sort {
        1 | 3 => (event.amount, rest) = scanner::read_number(text, b"amount")?,
        2 => (event.number, rest) = scanner::read_number(text, b"number")?,
        4 => {
            (event.kind, rest) = scanner::read_number(text, b"kind")?;
            (event.amount, rest) = scanner::read_number(rest, b"amount")?;
        }
        5 | 6 => {
            (event.usage, rest) = scanner::read_number(text, b"usage")?;
            (event.wh, rest) = scanner::read_number(rest, b"wh")?;
        }
        8 => {
            (event.kind, rest) = scanner::read_number(text, b"kind")?;
            (event.from, rest) = scanner::read_number(rest, b"from")?;
            (event.to, rest) = scanner::read_number(rest, b"to")?;
        }
        9 => (event.kind, rest) = scanner::read_number(text, b"kind")?,
        12 => (event.amount, rest) = scanner::read_number(text, b"price")?,
        _ => {}
    }
    Some((event, rest))
}

// The shortest event, `day=0` and `do=warn`, has 14 bytes.
#[tactic(auto, unfolding(crate::specs::Text::read_event))]
pub fn read_event(text: &[u8]) -> Option<(Event, &[u8])>
    ensures read { IsRead (read_event text.now) result }
    ensures shorter { IfSome result (λ p. length p.1.now + 14 ≤ length text.now) }
{
    let (day, rest) = scanner::read_number(text, b"day")?;
    let (sort, rest) = read_sort(rest)?;
    // a field that the sort does not name stays 0
    let event = Event {
        sort,
        day,
        ..Event::default()
    };
    read_fields(rest, event)
}

// ---- a whole text

// How a text stands to its form.
#[derive(Clone, Copy, Debug, PartialEq, Eq)]
pub enum Form {
    Sound,
    TooLong,
    // its terms break it
    Terms,
    // an event breaks it: which, and the line at which that event begins, both from 1
    Event { ordinal: u32, line: u32 },
}

// The line that starts after these bytes, of which a text has no more.
fn line_after(before: &[u8]) -> u32
    requires { length before.now ≤ max_text }
    ensures { result ≡ line_after before.now }
{
    (before.iter().filter(|byte| **byte == b'\n').count() + 1) as u32
}

// The definition of the events' form counts them down, which cuts nothing off.
pub fn count_suffices()
    ensures { EventsSuffice }
{}

// Whether a text keeps its form, and else what breaks it.
pub fn form_of(text: &[u8]) -> Form
    ensures { result ≡ form_of text.now }
{
    if text.len() > MAX_TEXT {
        return Form::TooLong;
    }
    let Some((_, mut rest)) = read_terms(text) else {
        return Form::Terms;
    };
    let mut ordinal = 1;
    while !rest.is_empty() {
        let Some((_, after)) = read_event(rest) else {
            let line = line_after(&text[..text.len() - rest.len()]);
            return Form::Event { ordinal, line };
        };
        rest = after;
        ordinal += 1;
    }
    Form::Sound
}
