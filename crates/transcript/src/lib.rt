// What `prepay` prints for a text: whole into a lent buffer, or in pieces through one of any size.
// It uses the terms, the ledger's answers, the scanner's and the text's reading, the moves, the account, the readings and the printing, and in its
// definitions the ledger after each event, which the refinement ties to the account. Its promises cite specs/Transcript.antt, specs/Counts.antt and
// specs/Pieces.antt, which use specs/Events.antt, specs/Progress.antt and specs/Work.antt.
#![tactic(auto)]

ghost use Rattle.std.specs.Prelude.{◌≡◌, ℕ, false, ◌+◌, ◌≤◌, ◌<◌, length};
ghost use Rattle.ledger.specs.Refusals.{refusal_code};
ghost use Rattle.account.specs.Record.{fresh};
ghost use Rattle.printing.specs.Printer.{HasRoom, Writes, WritesWithin};
ghost use Rattle.scanner.specs.Scanner.{IsRead};
ghost use Rattle.transcript.specs.Transcript.{WholeTranscript, terms_line};
ghost use Rattle.transcript.specs.Work.{account_line, account_last_line};
ghost use Rattle.transcript.specs.Progress.{reached};
ghost use Rattle.transcript.specs.Pieces.{event_room, last_room, piece_room, progress_of, Begun, Piece};
ghost use Rattle.transcript.specs.Counts.{CountsSuffice};

use account::Account;
use ledger::{Answer, Refusal};
use moves::Totals;
use printing::Printer;
use terms::Terms;

// The bytes that an event's line has at most.
const EVENT_ROOM: usize = 114;

// A buffer with room for an event's line and the last line; one that holds any transcript.
pub const PIECE_ROOM: usize = 174;

pub const TRANSCRIPT_ROOM: usize = 655360;

// How far a text is printed.
#[derive(Clone, Copy)]
pub struct Progress {
    // the account after the events printed; one of refused terms too, as the promise has it
    pub account: Account,
    // where the next event starts, a place since the text is lent anew for each piece, and how many were printed
    pub at: usize,
    pub count: u64,
    // 0, or the code of terms that are malformed or refused: a number, since a narrower type would ask more of callers
    pub code: u8,
    // whether no piece is left; beside the code, since the promise keeps the code after the last piece
    pub done: bool,
}

// ---- one line

// The line of an event, by its answer and the totals after it.
fn put_event(page: &mut Printer, n: u64, answer: Answer, s: Totals)
    requires { HasRoom page.old event_room }
    ensures { WritesWithin event_room page.old (account_line n answer.code answer.value s) page.new }
{
    page.put_field(b"n=", n);
    page.put_field(b" code=", u64::from(answer.code));
    page.put_field(b" value=", answer.value);
    page.put_sum(b" balance=", readings::balance(s));
    page.put_field(b" plan=", readings::plan(s));
    page.put_bytes(b"\n");
}

// The line of refused or malformed terms, by their code, which is what a progress keeps.
fn put_terms(page: &mut Printer, code: u8)
    requires { HasRoom page.old event_room }
    ensures { Writes page.old (terms_line code) page.new }
{
    put_event(page, 0, Answer { code, value: 0 }, Totals::default());
}

// The same for a refusal. Nothing is put where an event's line might have no room.
pub fn put_refusal(page: &mut Printer, refusal: Refusal)
    ensures printed { HasRoom page.old event_room → Writes page.old (terms_line (refusal_code refusal)) page.new }
    ensures short { length page.old.out.now < page.old.at + event_room → page.new ≡ page.old }
{
    if page.out.len().saturating_sub(page.at) >= EVENT_ROOM {
        put_terms(page, u8::from(refusal));
    }
}

// The last line, by the totals.
fn put_last_line(page: &mut Printer, s: Totals)
    requires { HasRoom page.old last_room }
    ensures { Writes page.old (account_last_line s) page.new }
{
    page.put_sum(b"settled=", readings::settled(s));
    page.put_field(b" estimates=", readings::estimates(s));
    page.put_bytes(b"\n");
}

// ---- the text

// The counts of events in the definitions of the lines and the pieces cut nothing off.
pub fn counts_suffice()
    ensures { CountsSuffice }
{}

impl Progress {
    // At a place of the text, with nothing printed.
    fn start(terms: Terms, at: usize, code: u8) -> Progress
        ensures { reached result 0 ≡ progress_of (fresh terms) at 0 code 0 false }
    {
        Progress {
            account: Account::fresh(terms),
            at,
            count: 0,
            code,
            done: false,
        }
    }

    // Before the first piece: the account that the terms open, or why they open none.
    pub fn begin(text: &[u8]) -> Progress
        ensures { Begun text.now (reached result 0) }
    {
        // In one place, so that the account is made once, where it stays; `account::open` would make one more.
        let (terms, at, code) = match text::terms_in(text) {
            Some((terms, rest)) => {
                let code = if terms.is_valid() {
                    0
                } else {
                    u8::from(Refusal::Terms)
                };
                (terms, text.len() - rest.len(), code)
            }
            None => (Terms::default(), 0, u8::from(Refusal::Form)),
        };
        Progress::start(terms, at, code)
    }

    // The lines of the events, while there is room for one and for the last line, and the last line.
    fn put_events(&mut self, text: &[u8], out: &mut [u8]) -> usize
        requires { (self.old.done ≡ false) × (self.old.code ≡ 0) × (self.old.count ≤ self.old.at) × (piece_room ≤ length out.old) }
        ensures { Piece text.now (reached self.old 0) out.old out.new (reached self.new result) }
    {
        let mut page = Printer { out, at: 0 };
        // It goes on where the last piece ended, and stops at the text's end, where there is no room, or where the form is broken.
        while self.at < text.len() {
            if page.out.len() - page.at < PIECE_ROOM {
                return page.at;
            }
            let Some((event, rest)) = text::read_event(&text[self.at..]) else {
                let malformed = Answer::from(Err(Refusal::Form));
                put_event(&mut page, self.count + 1, malformed, self.account.totals);
                break;
            };
            let answer = self.account.post(event);
            self.at = text.len() - rest.len();
            self.count += 1;
            put_event(
                &mut page,
                self.count,
                Answer::from(answer),
                self.account.totals,
            );
        }
        put_last_line(&mut page, self.account.totals);
        self.done = true;
        page.at
    }

    // The next piece, from the start of the buffer on, and how many bytes it has. A buffer shorter than `PIECE_ROOM` gets none, which has 0 bytes.
    pub fn piece(&mut self, text: &[u8], out: &mut [u8]) -> usize
        ensures piece { Piece text.now (reached self.old 0) out.old out.new (reached self.new result) }

        // whatever the piece before had, which no progress keeps
        ensures after_any { (n : ℕ) → Piece text.now (reached self.old n) out.old out.new (reached self.new result) }
    {
        if out.len() < PIECE_ROOM || self.done {
            return 0;
        }
        // (By `as`: usize has no `From` into u64.)
        if self.count > self.at as u64 {
            self.done = true;
            return 0;
        }
        if self.code == 0 {
            return self.put_events(text, out);
        }
        self.done = true;
        let mut page = Printer { out, at: 0 };
        put_terms(&mut page, self.code);
        page.at
    }
}

// The transcript of a text, from the start of the buffer on, and how many bytes it has. A buffer shorter than `TRANSCRIPT_ROOM` is left alone, and
// the answer is 0: C takes it as a length.
pub fn transcript(text: &[u8], out: &mut [u8]) -> usize
    ensures { WholeTranscript text.now out.old out.new result }
{
    if out.len() < TRANSCRIPT_ROOM {
        return 0;
    }
    Progress::begin(text).piece(text, out)
}
